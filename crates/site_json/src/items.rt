//! Items of a site, as the members of a tree say them.

ghost use Rattle.std.specs.Prelude.{◌≡◌, [], ◌∷◌, codes, Some, pos, MatchOption};
ghost use Rattle.serde_json.specs.Find.{get, as_array};
ghost use Rattle.serde_json.specs.View.{view};
ghost use Rattle.cable_definitions.specs.declared.site.Version.TheVariants.{One, Two};
ghost use Rattle.cable_definitions.specs.Items.{ATurbine, ASubstation, ABend, ACorner};
ghost use Rattle.site_model.specs.Building.{type_item, point_item, pair_item, kind_item};
ghost use Rattle.run_definitions.specs.Json.{whole, raw_type, point_with, raw_point, corner_of, raw_pair};
ghost use Rattle.site_json.specs.Shapes.{IsMisshapen, named_point};

use crate::members::{has_exactly, is_text_at, is_true_at, text_at, whole, whole_at};
use serde_json::Value;
use site_model::{RawKind, Version};

/// A cable type, which tells its loss in version 2 alone.
#[derive(Clone, Copy)]
pub(crate) struct RawType {
    pub capacity: i128,
    pub price: i128,
    pub loss: Option<i128>,
}

/// A point.
#[derive(Clone, Copy)]
pub(crate) struct RawPoint<'v> {
    pub name: &'v str,
    pub x: i128,
    pub y: i128,
    pub kind: RawKind,
}

/// A corner of an obstacle.
#[derive(Clone, Copy)]
pub(crate) struct RawCorner {
    pub x: i128,
    pub y: i128,
}

/// A pair rule: a charge, or a closing where no amount is given.
#[derive(Clone, Copy)]
pub(crate) struct RawPair<'v> {
    pub a: &'v str,
    pub b: &'v str,
    pub amount: Option<i128>,
}

/// The cable type that the member says; none where it has another shape.
pub(crate) fn type_of(version: Version, member: &Value) -> Option<RawType>
    ensures { MatchOption result
        (IsMisshapen (raw_type version (view member.now)))
        (λ t. raw_type version (view member.now) ≡ type_item version t.capacity t.price t.loss) }
{
    match version {
        Version::One => type_without_loss(member),
        Version::Two => type_with_loss(member),
    }
}

/// The cable type of version 1 that the member says.
fn type_without_loss(member: &Value) -> Option<RawType>
    ensures { MatchOption result
        (IsMisshapen (raw_type One (view member.now)))
        (λ t. raw_type One (view member.now) ≡ type_item One t.capacity t.price t.loss) }
{
    if !has_exactly(member, &["capacity", "price"]) {
        return None;
    }
    let capacity = whole_at(member, "capacity")?;
    let price = whole_at(member, "price")?;
    Some(RawType {
        capacity,
        price,
        loss: None,
    })
}

/// The cable type of version 2 that the member says.
fn type_with_loss(member: &Value) -> Option<RawType>
    ensures { MatchOption result
        (IsMisshapen (raw_type Two (view member.now)))
        (λ t. raw_type Two (view member.now) ≡ type_item Two t.capacity t.price t.loss) }
{
    if !has_exactly(member, &["capacity", "price", "loss"]) {
        return None;
    }
    let capacity = whole_at(member, "capacity")?;
    let price = whole_at(member, "price")?;
    let loss = whole_at(member, "loss")?;
    Some(RawType {
        capacity,
        price,
        loss: Some(loss),
    })
}

/// The point that the member says; none where it has another shape.
pub(crate) fn point_of(member: &Value) -> Option<RawPoint<'_>>
    ensures { MatchOption result
        (IsMisshapen (raw_point (view member.now)))
        (λ p. raw_point (view member.now) ≡ point_item p.name.now p.x p.y p.kind) }
{
    let kind = kind_of(member)?;
    let name = text_at(member, "name")?;
    let x = whole_at(member, "x")?;
    let y = whole_at(member, "y")?;
    Some(RawPoint { name, x, y, kind })
}

/// The kind of the point that the member says, where it has the keys and the numbers of its kind.
fn kind_of(member: &Value) -> Option<RawKind>
    ensures { MatchOption result
        (IsMisshapen (raw_point (view member.now)))
        (λ kind. raw_point (view member.now) ≡ named_point (kind_item kind) (view member.now)) }
{
    if is_text_at(member, "kind", "turbine") {
        return turbine_of(member);
    }
    if is_text_at(member, "kind", "substation") {
        return substation_of(member);
    }
    if is_text_at(member, "kind", "bend") {
        return bend_of(member);
    }
    None
}

/// A turbine, where the member has its keys and its number.
fn turbine_of(member: &Value) -> Option<RawKind>
    ensures { MatchOption result
        (IsMisshapen (point_with (codes "power" ∷ []) (ATurbine (whole (get (codes "power") (view member.now)))) (view member.now)))
        (λ kind. point_with (codes "power" ∷ []) (ATurbine (whole (get (codes "power") (view member.now)))) (view member.now) ≡ named_point (kind_item kind) (view member.now)) }
{
    if !has_exactly(member, &["kind", "name", "x", "y", "power"]) {
        return None;
    }
    let power = whole_at(member, "power")?;
    Some(RawKind::Turbine(power))
}

/// A substation, where the member has its keys and its numbers.
fn substation_of(member: &Value) -> Option<RawKind>
    ensures { MatchOption result
        (IsMisshapen (point_with (codes "feeders" ∷ codes "power" ∷ []) (ASubstation (whole (get (codes "feeders") (view member.now))) (whole (get (codes "power") (view member.now)))) (view member.now)))
        (λ kind. point_with (codes "feeders" ∷ codes "power" ∷ []) (ASubstation (whole (get (codes "feeders") (view member.now))) (whole (get (codes "power") (view member.now)))) (view member.now) ≡ named_point (kind_item kind) (view member.now)) }
{
    if !has_exactly(member, &["kind", "name", "x", "y", "feeders", "power"]) {
        return None;
    }
    let feeders = whole_at(member, "feeders")?;
    let power = whole_at(member, "power")?;
    Some(RawKind::Substation(feeders, power))
}

/// A bend, where the member has its keys.
fn bend_of(member: &Value) -> Option<RawKind>
    ensures { MatchOption result
        (IsMisshapen (point_with [] ABend (view member.now)))
        (λ kind. point_with [] ABend (view member.now) ≡ named_point (kind_item kind) (view member.now)) }
{
    if !has_exactly(member, &["kind", "name", "x", "y"]) {
        return None;
    }
    Some(RawKind::Bend)
}

/// The corner that the member says; none where it has another shape.
pub(crate) fn corner_of(member: &Value) -> Option<RawCorner>
    ensures { MatchOption result
        (IsMisshapen (corner_of (as_array (view member.now)) (view member.now)))
        (λ c. corner_of (as_array (view member.now)) (view member.now) ≡ ACorner (Some c.x) (Some c.y)) }
{
    let numbers = member.as_array()?;
    if numbers.len() != 2 {
        return None;
    }
    let x = whole(member.get(0usize))?;
    let y = whole(member.get(1usize))?;
    Some(RawCorner { x, y })
}

/// The pair rule that the member says; none where it has another shape.
pub(crate) fn pair_of(member: &Value) -> Option<RawPair<'_>>
    ensures { MatchOption result
        (IsMisshapen (raw_pair (view member.now)))
        (λ p. raw_pair (view member.now) ≡ pair_item p.a.now p.b.now p.amount) }
{
    let a = text_at(member, "a")?;
    let b = text_at(member, "b")?;
    if has_exactly(member, &["a", "b", "charge"]) {
        let charge = whole_at(member, "charge")?;
        return Some(RawPair {
            a,
            b,
            amount: Some(charge),
        });
    }
    if !has_exactly(member, &["a", "b", "closed"]) {
        return None;
    }
    if !is_true_at(member, "closed") {
        return None;
    }
    Some(RawPair { a, b, amount: None })
}
