//! Numbers as they are given, taken as the parts of a site where they are in range.

ghost use Rattle.std.specs.Prelude.{ℤ, ◌≡◌, ◌≤◌, MatchOption, pos, Some, [], ◌∷◌, All};
ghost use Rattle.cable_definitions.specs.declared.site.Version.{Version};
ghost use Rattle.cable_definitions.specs.Coordinate.{IsCoordinate};
ghost use Rattle.cable_definitions.specs.Site.{IsCableType, IsKind, IsPairRule};
ghost use Rattle.cable_definitions.specs.Items.{Stray, IsWithin, IsAt, within, coordinate, kind_fields, rule_fields, fields_of, raw_kind, raw_rule, AType};
ghost use Rattle.site_model.specs.Building.{type_item, kind_item, rule_item};

use cable_definitions::place::Place;
use cable_definitions::site::{CableType, Kind, PairRule, Version};

/// What stands at a point, with its numbers as they are given.
#[derive(Clone, Copy, Debug, PartialEq, Eq)]
pub enum RawKind {
    /// A turbine of a power.
    Turbine(i128),
    /// A substation with its feeders and a power.
    Substation(i128, i128),
    /// A bend.
    Bend,
}

/// The greatest coordinate, in metres.
const COORDINATE_MOST: i128 = 1_000_000;

/// The loss of a cable type as a version tells it: none in version 1, and some in version 2.
pub(crate) fn loss_for(version: Version, loss: Option<i128>) -> Option<i128>
    ensures { MatchOption result
        ((capacity price : ℤ) → type_item version capacity price loss ≡ Stray)
        (λ told. (capacity price : ℤ) → type_item version capacity price loss ≡ AType (Some capacity) (Some price) (Some told)) }
{
    match (version, loss) {
        (Version::One, None) => Some(0),
        (Version::Two, Some(loss)) => Some(loss),
        (Version::One, Some(_)) | (Version::Two, None) => None,
    }
}

/// The number, where it is one from `least` to `most`.
pub(crate) fn number_within(value: i128, least: u64, most: u64) -> Option<u64>
    ensures { MatchOption result
        (¬ IsWithin (within (Some value) (pos least) (pos most)))
        (λ number. (value ≡ pos number) × (least ≤ number) × (number ≤ most)) }
{
    if value < i128::from(least) {
        return None;
    }
    if value > i128::from(most) {
        return None;
    }
    Some(value as u64)
}

/// The coordinate, where the number is one.
fn coordinate_of(value: i128) -> Option<i64>
    ensures { MatchOption result
        (¬ IsWithin (coordinate (Some value)))
        (λ metres. (value ≡ metres) × IsCoordinate metres) }
{
    if value < -COORDINATE_MOST {
        return None;
    }
    if value > COORDINATE_MOST {
        return None;
    }
    Some(value as i64)
}

/// The place, where its coordinates are in range.
pub(crate) fn place_of(x: i128, y: i128) -> Option<Place>
    ensures { MatchOption result
        (¬ All IsWithin (coordinate (Some x) ∷ coordinate (Some y) ∷ []))
        (λ place. IsAt (Some x) (Some y) place) }
{
    let x = coordinate_of(x)?;
    let y = coordinate_of(y)?;
    Some(Place { x, y })
}

/// The kind, where its numbers are in range.
pub(crate) fn kind_of(kind: RawKind) -> Option<Kind>
    ensures { MatchOption result
        (¬ All IsWithin (kind_fields (kind_item kind)))
        (λ known. (kind_item kind ≡ raw_kind known) × IsKind known) }
{
    match kind {
        RawKind::Turbine(power) => {
            let power = number_within(power, 1, 1_000)? as u32;
            Some(Kind::Turbine { power })
        }
        RawKind::Substation(feeders, power) => {
            let feeders = number_within(feeders, 0, 256)? as u32;
            let power = number_within(power, 0, 300_000)? as u32;
            Some(Kind::Substation { feeders, power })
        }
        RawKind::Bend => Some(Kind::Bend),
    }
}

/// The cable type, where its numbers are in range.
pub(crate) fn type_of(capacity: i128, price: i128, loss: i128) -> Option<CableType>
    ensures { MatchOption result
        (¬ All IsWithin (fields_of (AType (Some capacity) (Some price) (Some loss))))
        (λ t. (capacity ≡ pos t.capacity) × (price ≡ pos t.price) × (loss ≡ pos t.loss) × IsCableType Version.Two t) }
{
    let capacity = number_within(capacity, 1, 10_000)? as u32;
    let price = number_within(price, 0, 1_000_000)? as u32;
    let loss = number_within(loss, 0, 100)? as u32;
    Some(CableType {
        capacity,
        price,
        loss,
    })
}

/// The rule of a pair, where its charge is in range; none closes the pair.
pub(crate) fn rule_of(amount: Option<i128>) -> Option<PairRule>
    ensures { MatchOption result
        (¬ All IsWithin (rule_fields (rule_item amount)))
        (λ rule. (rule_item amount ≡ raw_rule rule) × IsPairRule rule) }
{
    match amount {
        None => Some(PairRule::Closed),
        Some(amount) => {
            let amount = number_within(amount, 0, 1_000_000_000_000)?;
            Some(PairRule::Charge(amount))
        }
    }
}
