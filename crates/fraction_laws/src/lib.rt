//! The laws of rational numbers in lowest terms: equality by cross products, a commutative field,
//! its order, and finite sums.
#![tactic(auto)]

ghost use Rattle.std.specs.Prelude.{◌≡◌, ◌≢◌, ◌↔◌, ◌⊎◌, ◌≤◌, ◌*◌, ◌*ℤ◌, ℕ, ℤ, pos, List, [], ◌∷◌, ◌++◌};
ghost use Rattle.std.specs.Int.{◌∣◌, IsGcd};
ghost use Rattle.fraction_laws.specs.Divisor.{greatest_divisor, AreCoprime};
ghost use Rattle.fraction_laws.specs.Rational.{ℚ, ratio, whole, inverse, neg_ℚ, sum_ℚ, ◌+ℚ◌, ◌-ℚ◌, ◌*ℚ◌, ◌/ℚ◌, ◌≤ℚ◌, ◌<ℚ◌};

/// Euclid's steps find the greatest common divisor, and what divides a product and has no divisor
/// in common with one factor divides the other.
pub fn euclid()
    ensures greatest { (a b : ℕ) → IsGcd a b (greatest_divisor a b) }
    ensures other_factor { (a b c : ℕ) → AreCoprime a b → a ∣ b * c → a ∣ c }
{}

/// Reducing keeps a number, rational numbers are equal exactly where their cross products are, and a
/// quotient of whole numbers is the one number with their cross products.
pub fn cross_products()
    ensures reduced { (n : ℤ) (d : ℕ) (some : 1 ≤ d)
        → (ratio n d some).num *ℤ pos d ≡ n *ℤ pos (ratio n d some).den }
    ensures equal { (q r : ℚ) → (q.num *ℤ pos r.den ≡ r.num *ℤ pos q.den) ↔ (q ≡ r) }
    ensures quotient { (n d : ℤ) (q : ℚ) → d ≢ pos 0
        → (q.num *ℤ d ≡ n *ℤ pos q.den) ↔ (q ≡ whole n /ℚ whole d) }
{}

/// The rational numbers are a commutative field.
pub fn field_laws()
    ensures sum_commutes { (a b : ℚ) → a +ℚ b ≡ b +ℚ a }
    ensures sum_regroups { (a b c : ℚ) → a +ℚ b +ℚ c ≡ a +ℚ (b +ℚ c) }
    ensures zero_added { (a : ℚ) → a +ℚ whole (pos 0) ≡ a }
    ensures opposite { (a : ℚ) → a +ℚ neg_ℚ a ≡ whole (pos 0) }
    ensures product_commutes { (a b : ℚ) → a *ℚ b ≡ b *ℚ a }
    ensures product_regroups { (a b c : ℚ) → a *ℚ b *ℚ c ≡ a *ℚ (b *ℚ c) }
    ensures one_multiplied { (a : ℚ) → a *ℚ whole (pos 1) ≡ a }
    ensures inverse_multiplied { (a : ℚ) → a ≢ whole (pos 0) → a *ℚ inverse a ≡ whole (pos 1) }
    ensures sums_multiplied { (a b c : ℚ) → a *ℚ (b +ℚ c) ≡ a *ℚ b +ℚ a *ℚ c }
    ensures one_is_not_zero { whole (pos 1) ≢ whole (pos 0) }
{}

/// The order of the rational numbers is total, and kept by sums and by positive factors.
pub fn order_laws()
    ensures reflexive { (a : ℚ) → a ≤ℚ a }
    ensures antisymmetric { (a b : ℚ) → a ≤ℚ b → b ≤ℚ a → a ≡ b }
    ensures transitive { (a b c : ℚ) → a ≤ℚ b → b ≤ℚ c → a ≤ℚ c }
    ensures total { (a b : ℚ) → (a ≤ℚ b) ⊎ (b <ℚ a) }
    ensures exclusive { (a b : ℚ) → a <ℚ b → ¬ (b ≤ℚ a) }
    ensures sums { (a b c d : ℚ) → a ≤ℚ b → c ≤ℚ d → a +ℚ c ≤ℚ b +ℚ d }
    ensures strict_sums { (a b c d : ℚ) → a <ℚ b → c ≤ℚ d → a +ℚ c <ℚ b +ℚ d }
    ensures factors { (a b c : ℚ) → whole (pos 0) ≤ℚ c → a ≤ℚ b → c *ℚ a ≤ℚ c *ℚ b }
    ensures strict_factors { (a b c : ℚ) → whole (pos 0) <ℚ c → a <ℚ b → c *ℚ a <ℚ c *ℚ b }
    ensures inverses { (a : ℚ) → whole (pos 0) <ℚ a → whole (pos 0) <ℚ inverse a }
{}

/// Finite sums are linear, keep an order, and two of them may be exchanged.
pub fn sum_laws()
    ensures appended { (f : ℕ → ℚ) (xs ys : List ℕ) → sum_ℚ f (xs ++ ys) ≡ sum_ℚ f xs +ℚ sum_ℚ f ys }
    ensures added { (f g : ℕ → ℚ) (xs : List ℕ) → sum_ℚ (λ x. f x +ℚ g x) xs ≡ sum_ℚ f xs +ℚ sum_ℚ g xs }
    ensures multiplied { (a : ℚ) (f : ℕ → ℚ) (xs : List ℕ) → sum_ℚ (λ x. a *ℚ f x) xs ≡ a *ℚ sum_ℚ f xs }
    ensures ordered { (f g : ℕ → ℚ) (xs : List ℕ) → ((x : ℕ) → f x ≤ℚ g x) → sum_ℚ f xs ≤ℚ sum_ℚ g xs }
    ensures exchanged { (f : ℕ → ℕ → ℚ) (xs ys : List ℕ)
        → sum_ℚ (λ x. sum_ℚ (f x) ys) xs ≡ sum_ℚ (λ y. sum_ℚ (λ x. f x y) xs) ys }
{}
