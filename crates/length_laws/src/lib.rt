//! The length of a cable, by which its price is charged, is the least whole number of metres that isn't below the distance of its ends. The definitions
//! compute it; here it is tied to what it means.
#![tactic(auto)]

ghost use Rattle.std.specs.Prelude.{◌≡◌, ℕ};
ghost use Rattle.cable_definitions.specs.declared.place.Place.{Place};
ghost use Rattle.cable_definitions.specs.Plane.{IsLength, length_of};

/// The computed length of the pair of two places is the least whole number of metres whose square isn't below the square of their distance, and there is
/// one such number.
pub fn length_of_is_the_least()
    ensures least { (a b : Place) → IsLength a b (length_of a b) }
    ensures single { (a b : Place) (m n : ℕ) → IsLength a b m → IsLength a b n → m ≡ n }
{}
