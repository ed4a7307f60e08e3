//! The items of a site's lists, given to a builder one after another.

ghost use Rattle.std.specs.Prelude.{◌≡◌, ◌≢◌, ℕ, ◌+◌, ◌-◌, ◌<◌, ◌≤◌, ◌^◌, [], ◌∷◌, Bool, Err, false, map, length, IfOk, OnOk};
ghost use Rattle.serde_json.specs.Find.{as_array};
ghost use Rattle.serde_json.specs.View.{view};
ghost use Rattle.cable_definitions.specs.declared.site.SiteCode.{SiteCode};
ghost use Rattle.run_definitions.specs.Json.{raw_type, raw_point, corner_of, raw_obstacle, raw_pair, raw_types, raw_points, raw_corners, raw_obstacles, raw_pairs};
ghost use Rattle.serde_json.specs.View.{items_view};
ghost use Rattle.site_json.specs.Faults.{LeadsOn, Fails, fault_at, listed};
ghost use Rattle.site_json.specs.Progress.{TakesTypes, TakesUpTo, TakesCorners};

use crate::items::{corner_of, pair_of, point_of, type_of};
use crate::members::members_at;
use serde_json::Value;
use site_model::{BuildFault, SiteBuilder, SiteCode, SiteFault, Version};

/// The fault of a builder at a place.
pub(crate) fn fault_at(place: u64, fault: BuildFault) -> SiteFault
    ensures { result ≡ fault_at place fault }
{
    match fault {
        BuildFault::Refused(code) => SiteFault::refused(code, place),
        BuildFault::Memory => SiteFault::Memory,
    }
}

/// Adds the cable type that a member says, behind as many items as `before`.
fn add_type(
    builder: &mut SiteBuilder,
    version: Version,
    member: &Value,
    before: u64,
) -> Result<(), SiteFault>
    requires takes { TakesTypes builder.old before }
    requires version { builder.old.site.version ≡ version }
    ensures leads { OnOk result (LeadsOn builder.old before (raw_type version (view member.now) ∷ []) builder.new (before + 1)) }
    ensures takes { OnOk result (TakesTypes builder.new (before + 1)) }
    ensures version { OnOk result (builder.new.site.version ≡ version) }
    ensures grows { OnOk result (length builder.old.site.types < length builder.new.site.types) }
    ensures refused { (code : SiteCode) (place : ℕ) (broken : Bool) → result ≡ Err (SiteFault.Refused code place broken)
        → Fails builder.old before (raw_type version (view member.now) ∷ []) code place broken }
    ensures read { result ≢ Err SiteFault.Read }
{
    let Some(found) = type_of(version, member) else {
        return Err(SiteFault::refused(SiteCode::Shape, before + 1));
    };
    match builder.add_type(found.capacity, found.price, found.loss) {
        Ok(()) => Ok(()),
        Err(fault) => Err(fault_at(before + 1, fault)),
    }
}

/// Adds the cable types of a site.
pub(crate) fn add_types(
    builder: &mut SiteBuilder,
    version: Version,
    types: &[Value],
    before: u64,
) -> Result<u64, SiteFault>
    requires takes { TakesTypes builder.old before }
    requires version { builder.old.site.version ≡ version }
    ensures leads { IfOk result (λ after. LeadsOn builder.old before (raw_types version (map view types.now)) builder.new after) }
    ensures takes { IfOk result (λ after. TakesTypes builder.new after) }
    ensures types { OnOk result (length types.now ≤ length builder.new.site.types) }
    ensures refused { (code : SiteCode) (place : ℕ) (broken : Bool) → result ≡ Err (SiteFault.Refused code place broken)
        → Fails builder.old before (raw_types version (map view types.now)) code place broken }
    ensures read { result ≢ Err SiteFault.Read }
{
    let mut placed = before;
    for member in types {
        add_type(builder, version, member, placed)?;
        placed += 1;
    }
    Ok(placed)
}

/// Adds the point that a member says.
fn add_point(builder: &mut SiteBuilder, member: &Value, before: u64) -> Result<(), SiteFault>
    requires { TakesUpTo 3 builder.old before }
    ensures leads { OnOk result (LeadsOn builder.old before (raw_point (view member.now) ∷ []) builder.new (before + 1)) }
    ensures takes { OnOk result (TakesUpTo 3 builder.new (before + 1)) }
    ensures refused { (code : SiteCode) (place : ℕ) (broken : Bool) → result ≡ Err (SiteFault.Refused code place broken)
        → Fails builder.old before (raw_point (view member.now) ∷ []) code place broken }
    ensures read { result ≢ Err SiteFault.Read }
{
    let Some(found) = point_of(member) else {
        return Err(SiteFault::refused(SiteCode::Shape, before + 1));
    };
    match builder.add_point(found.name.as_bytes(), found.x, found.y, found.kind) {
        Ok(()) => Ok(()),
        Err(fault) => Err(fault_at(before + 1, fault)),
    }
}

/// Adds the points of a site.
pub(crate) fn add_points(
    builder: &mut SiteBuilder,
    points: &[Value],
    before: u64,
) -> Result<u64, SiteFault>
    requires { TakesUpTo 3 builder.old before }
    ensures leads { IfOk result (λ after. LeadsOn builder.old before (raw_points (map view points.now)) builder.new after) }
    ensures takes { IfOk result (λ after. TakesUpTo 3 builder.new after) }
    ensures refused { (code : SiteCode) (place : ℕ) (broken : Bool) → result ≡ Err (SiteFault.Refused code place broken)
        → Fails builder.old before (raw_points (map view points.now)) code place broken }
    ensures read { result ≢ Err SiteFault.Read }
{
    let mut placed = before;
    for member in points {
        add_point(builder, member, placed)?;
        placed += 1;
    }
    Ok(placed)
}

/// Adds the corner that a member says.
fn add_corner(builder: &mut SiteBuilder, member: &Value, before: u64) -> Result<(), SiteFault>
    requires takes { TakesCorners builder.old.missing builder.old before }
    requires missing { 1 ≤ builder.old.missing }
    ensures leads { OnOk result (LeadsOn builder.old before (corner_of (as_array (view member.now)) (view member.now) ∷ []) builder.new (before + 1)) }
    ensures takes { OnOk result (TakesCorners (builder.old.missing - 1) builder.new (before + 1)) }
    ensures refused { (code : SiteCode) (place : ℕ) (broken : Bool) → result ≡ Err (SiteFault.Refused code place broken)
        → Fails builder.old before (corner_of (as_array (view member.now)) (view member.now) ∷ []) code place broken }
    ensures read { result ≢ Err SiteFault.Read }
{
    let Some(found) = corner_of(member) else {
        return Err(SiteFault::refused(SiteCode::Shape, before + 1));
    };
    match builder.add_corner(found.x, found.y) {
        Ok(()) => Ok(()),
        Err(fault) => Err(fault_at(before + 1, fault)),
    }
}

/// Adds the corners of an obstacle that lacks these.
fn add_corners(builder: &mut SiteBuilder, corners: &[Value], before: u64) -> Result<u64, SiteFault>
    requires { TakesCorners (length corners.now) builder.old before }
    ensures leads { IfOk result (λ after. LeadsOn builder.old before (raw_corners (items_view corners.now)) builder.new after) }
    ensures takes { IfOk result (λ after. TakesCorners 0 builder.new after) }
    ensures refused { (code : SiteCode) (place : ℕ) (broken : Bool) → result ≡ Err (SiteFault.Refused code place broken)
        → Fails builder.old before (raw_corners (items_view corners.now)) code place broken }
    ensures read { result ≢ Err SiteFault.Read }
{
    let mut placed = before;
    for member in corners {
        add_corner(builder, member, placed)?;
        placed += 1;
    }
    Ok(placed)
}

/// Adds the obstacle that a member says, with its corners.
fn add_obstacle(builder: &mut SiteBuilder, member: &Value, before: u64) -> Result<u64, SiteFault>
    requires { TakesUpTo 4 builder.old before }
    ensures leads { IfOk result (λ after. LeadsOn builder.old before (raw_obstacle (as_array (view member.now))) builder.new after) }
    ensures takes { IfOk result (λ after. TakesUpTo 4 builder.new after) }
    ensures refused { (code : SiteCode) (place : ℕ) (broken : Bool) → result ≡ Err (SiteFault.Refused code place broken)
        → Fails builder.old before (raw_obstacle (as_array (view member.now))) code place broken }
    ensures read { result ≢ Err SiteFault.Read }
{
    let Some(corners) = member.as_array() else {
        return Err(SiteFault::refused(SiteCode::Shape, before + 1));
    };
    match builder.add_obstacle(corners.len() as i128) {
        Ok(()) => add_corners(builder, corners.as_slice(), before + 1),
        Err(fault) => Err(fault_at(before + 1, fault)),
    }
}

/// Adds the obstacles of a site.
pub(crate) fn add_obstacles(
    builder: &mut SiteBuilder,
    obstacles: &[Value],
    before: u64,
) -> Result<u64, SiteFault>
    requires { TakesUpTo 4 builder.old before }
    ensures leads { IfOk result (λ after. LeadsOn builder.old before (raw_obstacles (map view obstacles.now)) builder.new after) }
    ensures takes { IfOk result (λ after. TakesUpTo 4 builder.new after) }
    ensures refused { (code : SiteCode) (place : ℕ) (broken : Bool) → result ≡ Err (SiteFault.Refused code place broken)
        → Fails builder.old before (raw_obstacles (map view obstacles.now)) code place broken }
    ensures read { result ≢ Err SiteFault.Read }
{
    let mut placed = before;
    for member in obstacles {
        placed = add_obstacle(builder, member, placed)?;
    }
    Ok(placed)
}

/// Adds the pair rule that a member says.
fn add_pair(builder: &mut SiteBuilder, member: &Value, before: u64) -> Result<(), SiteFault>
    requires takes { TakesUpTo 5 builder.old before }
    requires room { before + 1 < 2 ^ 64 }
    ensures leads { OnOk result (LeadsOn builder.old before (raw_pair (view member.now) ∷ []) builder.new (before + 1)) }
    ensures takes { OnOk result (TakesUpTo 5 builder.new (before + 1)) }
    ensures grows { OnOk result (length builder.new.site.pairs ≡ length builder.old.site.pairs + 1) }
    ensures refused { (code : SiteCode) (place : ℕ) (broken : Bool) → result ≡ Err (SiteFault.Refused code place broken)
        → Fails builder.old before (raw_pair (view member.now) ∷ []) code place broken }
    ensures read { result ≢ Err SiteFault.Read }
{
    let Some(found) = pair_of(member) else {
        return Err(SiteFault::refused(SiteCode::Shape, before + 1));
    };
    match builder.add_pair(found.a.as_bytes(), found.b.as_bytes(), found.amount) {
        Ok(()) => Ok(()),
        Err(fault) => Err(fault_at(before + 1, fault)),
    }
}

/// Adds the pair rules of a site.
pub(crate) fn add_pairs(
    builder: &mut SiteBuilder,
    pairs: &[Value],
    before: u64,
) -> Result<u64, SiteFault>
    requires takes { TakesUpTo 4 builder.old before }
    requires room { length pairs.now < 2 ^ 63 }
    ensures leads { IfOk result (λ after. LeadsOn builder.old before (raw_pairs (map view pairs.now)) builder.new after) }
    ensures takes { IfOk result (λ after. TakesUpTo 5 builder.new after) }
    ensures room { IfOk result (λ after. after + 1 < 2 ^ 64) }
    ensures refused { (code : SiteCode) (place : ℕ) (broken : Bool) → result ≡ Err (SiteFault.Refused code place broken)
        → Fails builder.old before (raw_pairs (map view pairs.now)) code place broken }
    ensures read { result ≢ Err SiteFault.Read }
{
    let mut placed = before;
    for member in pairs {
        add_pair(builder, member, placed)?;
        placed += 1;
    }
    Ok(placed)
}

/// Adds the lists that a tree says, behind the items of the version and the mode.
pub(crate) fn add_lists(
    builder: &mut SiteBuilder,
    version: Version,
    tree: &Value,
) -> Result<u64, SiteFault>
    requires takes { TakesTypes builder.old 2 }
    requires version { builder.old.site.version ≡ version }
    ensures leads { IfOk result (λ after. LeadsOn builder.old 2 (listed version (view tree.now)) builder.new after) }
    ensures takes { IfOk result (λ after. TakesUpTo 5 builder.new after) }
    ensures room { IfOk result (λ after. after + 1 < 2 ^ 64) }
    ensures refused { (code : SiteCode) (place : ℕ) (broken : Bool) → result ≡ Err (SiteFault.Refused code place broken)
        → Fails builder.old 2 (listed version (view tree.now)) code place broken }
    ensures read { result ≢ Err SiteFault.Read }
{
    let types = members_at(tree, "types");
    if types.is_empty() {
        return Err(SiteFault::refused(SiteCode::Form, 3));
    }
    let after_types = add_types(builder, version, types, 2)?;
    let after_points = add_points(builder, members_at(tree, "points"), after_types)?;
    let after_obstacles = add_obstacles(builder, members_at(tree, "obstacles"), after_points)?;
    add_pairs(builder, members_at(tree, "pairs"), after_obstacles)
}
