//! A site that is built item by item, each of which is looked at before it is added.

ghost use Rattle.std.specs.Prelude.{true, false, slice_set, slice_index_or, ◌++◌, sum_by, vec_len, vec_capacity, ◌≢◌, ◌==◌, IfErr, ◌&&◌, ◌≡◌, ◌↔◌, ◌≤◌, IsTrue, OnOk, OnErr, IfOk, MatchResult, MatchOption, pos, Some, [], ◌∷◌, Any, nat_le, length, ◌<◌, slice_get};
ghost use Rattle.cable_definitions.specs.Text.{name_of};
ghost use Rattle.site_model.specs.Stages.{stage_number};
ghost use Rattle.cable_definitions.specs.declared.site.SiteCode.{SiteCode};
ghost use Rattle.cable_definitions.specs.declared.site.Version.{Version};
ghost use Rattle.cable_definitions.specs.Naming.{IsName};
ghost use Rattle.cable_definitions.specs.Plane.{IsOutside};
ghost use Rattle.cable_definitions.specs.Site.{version_number, latest_version};
ghost use Rattle.site_model.specs.Drafts.{item_of_type, item_of_point, item_of_pair};
ghost use Rattle.cable_definitions.specs.Items.{HasNamed, is_settled, may_stand, TheEnd, AnObstacle, ACorner, IsGood, IsFirstCode, Adds, IsAt};
ghost use Rattle.site_model.specs.Building.{type_item, point_item, pair_item};

use crate::Site;
use crate::fault::BuildFault;
use crate::name_index::{add_name, number_in};
use crate::pair_table::{empty_table, enter, has_rule};
use crate::raw::{RawKind, kind_of, loss_for, number_within, place_of, rule_of, type_of};
use cable_definitions::place::Place;
use cable_definitions::site::{
    CableType, Mode, Name, Obstacle, Pair, PairRule, Point, SiteCode, Version,
};
use indexmap::IndexSet;
use plane_geometry::outside;
use std::alloc::{AllocError, Global};
use std::marker::Model;
use std::mem::replace;

/// The lists of a site, in file order: the one that the last item stands in.
#[derive(Clone, Copy, Debug, PartialEq, Eq, PartialOrd, Ord)]
enum Stage {
    Types,
    Points,
    Obstacles,
    Pairs,
}

/// A site so far. Items come in file order, and one that breaks a rule changes nothing.
#[derive(Drop)]
pub struct SiteBuilder {
    alloc: Global,
    stage: Stage,
    version: Version,
    mode: Mode,
    types: Vec<CableType>,
    points: Vec<Point>,
    names: IndexSet<Vec<u8>>,
    obstacles: Vec<Obstacle>,
    pairs: Vec<Pair>,
    rules: Vec<Option<PairRule>>,
    corners: Vec<Place>,
    missing: usize,
}

impl Stage {
    /// Whether this stage is the other one or comes before it.
    fn is_at_most(self, most: Stage) -> bool
        ensures { result ≡ nat_le (stage_number self) (stage_number most) }
    {
        self <= most
    }
}

impl Model for SiteBuilder {
    ghost use Rattle.cable_definitions.specs.Items.{Draft};
    ghost use Rattle.std.specs.Prelude.{vec_capacity};
    ghost use Rattle.site_model.specs.Drafts.{IsBuilder};
    ghost use Rattle.site_model.specs.Numbered.{names_in};
    ghost use Rattle.site_model.specs.Stages.{stage_number};

    ghost Value = { Draft };

    ghost view = { λ b. record { stage = stage_number b.stage; site = record { version = b.version; mode = b.mode; types = b.types.items; points = b.points.items; obstacles = b.obstacles.items; pairs = b.pairs.items }; corners = b.corners.items; missing = b.missing } };

    ghost invariant = { λ b. IsBuilder (record { stage = stage_number b.stage; site = record { version = b.version; mode = b.mode; types = b.types.items; points = b.points.items; obstacles = b.obstacles.items; pairs = b.pairs.items }; corners = b.corners.items; missing = b.missing }) (vec_capacity b.corners) (vec_capacity b.obstacles) b.rules.items (names_in b.names.keys) };
}

impl SiteBuilder {
    /// A site with no types, points, obstacles and pair rules so far, of a version that is read.
    ///
    /// # Errors
    ///
    /// `AllocError` where there is no memory.
    pub fn new(alloc: Global, version: Version, mode: Mode) -> Result<SiteBuilder, AllocError>
        requires { version_number version ≤ latest_version }
        ensures { IfOk result (λ builder. builder ≡ record { stage = 2; site = record { version = version; mode = mode; types = []; points = []; obstacles = []; pairs = [] }; corners = []; missing = 0 }) }
    {
        Ok(SiteBuilder {
            alloc,
            stage: Stage::Types,
            version,
            mode,
            types: Vec::with_capacity(alloc, 8)?,
            points: Vec::with_capacity(alloc, 256)?,
            names: IndexSet::with_capacity(alloc, 256)?,
            obstacles: Vec::with_capacity(alloc, 64)?,
            pairs: Vec::new(alloc),
            rules: empty_table(alloc, 65_536)?,
            corners: Vec::new(alloc),
            missing: 0,
        })
    }

    /// Adds a cable type: its capacity in power units, its price in cost units a metre, and its loss, which is given in version 2 alone.
    ///
    /// # Errors
    ///
    /// `Refused` with the first of these codes that is so, or `Memory`; nothing changes then. `Form` where a point stands already, or a loss is given in version 1 or
    /// missing in version 2; `Range` where a number is outside its range; `TooMany` where eight types stand.
    pub fn add_type(
        &mut self,
        capacity: i128,
        price: i128,
        loss: Option<i128>,
    ) -> Result<(), BuildFault>
        ensures good { OnOk result (IsGood self.old (type_item self.old.site.version capacity price loss)) }
        ensures adds { OnOk result (Adds self.old (type_item self.old.site.version capacity price loss) self.new) }
        ensures refused { (code : SiteCode) → ((result ≡ Err (BuildFault.Refused code)) ↔ IsFirstCode self.old (type_item self.old.site.version capacity price loss) code) }
        ensures memory { result ≡ Err BuildFault.Memory → IsGood self.old (type_item self.old.site.version capacity price loss) }
        ensures unchanged { OnErr result (self.new ≡ self.old) }
    {
        let cable_type = match self.new_type(capacity, price, loss) {
            Ok(cable_type) => cable_type,
            Err(code) => return Err(BuildFault::Refused(code)),
        };
        if self.types.push(cable_type).is_err() {
            return Err(BuildFault::Memory);
        }
        Ok(())
    }

    /// The cable type of an item, or the first code that it breaks.
    fn new_type(
        &self,
        capacity: i128,
        price: i128,
        loss: Option<i128>,
    ) -> Result<CableType, SiteCode>
        ensures good { OnOk result (IsGood self.now (type_item self.now.site.version capacity price loss)) }
        ensures item { IfOk result (λ t. type_item self.now.site.version capacity price loss ≡ item_of_type t) }
        ensures code { IfErr result (λ code. IsFirstCode self.now (type_item self.now.site.version capacity price loss) code) }
    {
        let Some(loss) = loss_for(self.version, loss) else {
            return Err(SiteCode::Form);
        };
        if !self.takes_types() {
            return Err(SiteCode::Form);
        }
        let Some(cable_type) = type_of(capacity, price, loss) else {
            return Err(SiteCode::Range);
        };
        if self.types.len() >= 8 {
            return Err(SiteCode::TooMany);
        }
        Ok(cable_type)
    }

    /// Adds a point at these coordinates in metres.
    ///
    /// # Errors
    ///
    /// `Refused` with the first of these codes that is so, or `Memory`; nothing changes then. `Form` where there is no type yet, or an obstacle or a pair
    /// rule stands already; `Range` where a number is outside its range; `BadName` where the bytes are no name; `SameName` and `SamePlace` where an earlier
    /// point has it; `TooMany` where 256 points stand.
    pub fn add_point(
        &mut self,
        name: &[u8],
        x: i128,
        y: i128,
        kind: RawKind,
    ) -> Result<(), BuildFault>
        ensures good { OnOk result (IsGood self.old (point_item name.now x y kind)) }
        ensures adds { OnOk result (Adds self.old (point_item name.now x y kind) self.new) }
        ensures refused { (code : SiteCode) → ((result ≡ Err (BuildFault.Refused code)) ↔ IsFirstCode self.old (point_item name.now x y kind) code) }
        ensures memory { result ≡ Err BuildFault.Memory → IsGood self.old (point_item name.now x y kind) }
        ensures unchanged { OnErr result (self.new ≡ self.old) }
    {
        let point = match self.new_point(name, x, y, kind) {
            Ok(point) => point,
            Err(code) => return Err(BuildFault::Refused(code)),
        };
        // Room is made for the point here, so that no name is kept without its point.
        if self.points.reserve(1).is_err() {
            return Err(BuildFault::Memory);
        }
        if add_name(self.alloc, &mut self.names, name).is_err() {
            return Err(BuildFault::Memory);
        }
        self.points.push_reserved(point);
        self.stage = Stage::Points;
        Ok(())
    }

    /// The point of an item, or the first code that it breaks.
    fn new_point(&self, name: &[u8], x: i128, y: i128, kind: RawKind) -> Result<Point, SiteCode>
        ensures good { OnOk result (IsGood self.now (point_item name.now x y kind)) }
        ensures item { IfOk result (λ p. point_item name.now x y kind ≡ item_of_point p) }
        ensures code { IfErr result (λ code. IsFirstCode self.now (point_item name.now x y kind) code) }
    {
        if !self.takes_points() {
            return Err(SiteCode::Form);
        }
        let Some(at) = place_of(x, y) else {
            return Err(SiteCode::Range);
        };
        let Some(kind) = kind_of(kind) else {
            return Err(SiteCode::Range);
        };
        let Some(own_name) = Name::new(name) else {
            return Err(SiteCode::BadName);
        };
        if self.has_name(name) {
            return Err(SiteCode::SameName);
        }
        if has_place(self.points.as_slice(), at) {
            return Err(SiteCode::SamePlace);
        }
        if self.points.len() >= 256 {
            return Err(SiteCode::TooMany);
        }
        Ok(Point {
            name: own_name,
            at,
            kind,
        })
    }

    /// Begins an obstacle of this many corners, which come next.
    ///
    /// # Errors
    ///
    /// `Refused` with the first of these codes that is so, or `Memory`; nothing changes then. `Form` where there is no type yet, a corner of the obstacle before
    /// is missing, or a pair rule stands already; `Range` where there aren't 3 to 1,024 corners; `TooMany` where 64 obstacles stand, or the corners together
    /// would be more than 1,024.
    pub fn add_obstacle(&mut self, corners: i128) -> Result<(), BuildFault>
        ensures good { OnOk result (IsGood self.old (AnObstacle (Some corners))) }
        ensures adds { OnOk result (Adds self.old (AnObstacle (Some corners)) self.new) }
        ensures refused { (code : SiteCode) → ((result ≡ Err (BuildFault.Refused code)) ↔ IsFirstCode self.old (AnObstacle (Some corners)) code) }
        ensures memory { result ≡ Err BuildFault.Memory → IsGood self.old (AnObstacle (Some corners)) }
        ensures unchanged { OnErr result (self.new ≡ self.old) }
    {
        let count = match self.new_obstacle(corners) {
            Ok(count) => count,
            Err(code) => return Err(BuildFault::Refused(code)),
        };
        // Room is made for the whole obstacle here, so that no corner wants memory.
        if self.obstacles.reserve(1).is_err() {
            return Err(BuildFault::Memory);
        }
        if self.corners.reserve(count).is_err() {
            return Err(BuildFault::Memory);
        }
        self.corners.clear();
        self.missing = count;
        self.stage = Stage::Obstacles;
        Ok(())
    }

    /// The number of corners of an item, or the first code that it breaks.
    fn new_obstacle(&self, corners: i128) -> Result<usize, SiteCode>
        ensures good { OnOk result (IsGood self.now (AnObstacle (Some corners))) }
        ensures count { IfOk result (λ count. corners ≡ pos count) }
        ensures code { IfErr result (λ code. IsFirstCode self.now (AnObstacle (Some corners)) code) }
    {
        if !self.takes_obstacles() {
            return Err(SiteCode::Form);
        }
        let Some(count) = number_within(corners, 3, 1_024) else {
            return Err(SiteCode::Range);
        };
        if self.obstacles.len() >= 64 {
            return Err(SiteCode::TooMany);
        }
        if corner_count(self.obstacles.as_slice()) + count as usize > 1_024 {
            return Err(SiteCode::TooMany);
        }
        Ok(count as usize)
    }

    /// Adds the next corner of the obstacle that was begun, in metres; with the last one it is complete. No memory is taken.
    ///
    /// # Errors
    ///
    /// `Refused` with the first of these codes that is so; nothing changes then. `Form` where no corner is missing; `Range` where a coordinate is outside its
    /// range; `InObstacle` where it is the last corner and some point isn't outside the obstacle.
    pub fn add_corner(&mut self, x: i128, y: i128) -> Result<(), BuildFault>
        ensures good { OnOk result (IsGood self.old (ACorner (Some x) (Some y))) }
        ensures adds { OnOk result (Adds self.old (ACorner (Some x) (Some y)) self.new) }
        ensures refused { (code : SiteCode) → ((result ≡ Err (BuildFault.Refused code)) ↔ IsFirstCode self.old (ACorner (Some x) (Some y)) code) }
        ensures memory { result ≢ Err BuildFault.Memory }
        ensures unchanged { OnErr result (self.new ≡ self.old) }
    {
        let corner = match self.new_corner(x, y) {
            Ok(corner) => corner,
            Err(code) => return Err(BuildFault::Refused(code)),
        };
        if encloses(
            self.points.as_slice(),
            &mut self.corners,
            corner,
            self.missing,
        ) {
            return Err(BuildFault::Refused(SiteCode::InObstacle));
        }
        self.corners.push_reserved(corner);
        self.missing -= 1;
        if self.missing > 0 {
            return Ok(());
        }
        complete(self.alloc, &mut self.obstacles, &mut self.corners);
        Ok(())
    }

    /// The place of a corner, or the first code that it breaks before that of points inside.
    fn new_corner(&self, x: i128, y: i128) -> Result<Place, SiteCode>
        ensures stands { OnOk result (IsTrue (may_stand self.now (ACorner (Some x) (Some y)))) }
        ensures place { IfOk result (λ corner. IsAt (Some x) (Some y) corner) }
        ensures code { IfErr result (λ code. IsFirstCode self.now (ACorner (Some x) (Some y)) code) }
    {
        if !self.takes_corners() {
            return Err(SiteCode::Form);
        }
        let Some(corner) = place_of(x, y) else {
            return Err(SiteCode::Range);
        };
        Ok(corner)
    }

    /// Adds a pair rule on the points of two names: a charge in cost units, or a closing where no amount is given.
    ///
    /// # Errors
    ///
    /// `Refused` with the first of these codes that is so, or `Memory`; nothing changes then. `Form` where there is no type yet or a corner is missing; `Range`
    /// where the amount is outside its range; `BadName` where the bytes of a name are none; `UnknownName` where no point has it; `SamePair` where both names
    /// are one point's, or an earlier rule names the pair.
    pub fn add_pair(&mut self, a: &[u8], b: &[u8], amount: Option<i128>) -> Result<(), BuildFault>
        ensures good { OnOk result (IsGood self.old (pair_item a.now b.now amount)) }
        ensures adds { OnOk result (Adds self.old (pair_item a.now b.now amount) self.new) }
        ensures refused { (code : SiteCode) → ((result ≡ Err (BuildFault.Refused code)) ↔ IsFirstCode self.old (pair_item a.now b.now amount) code) }
        ensures memory { result ≡ Err BuildFault.Memory → IsGood self.old (pair_item a.now b.now amount) }
        ensures unchanged { OnErr result (self.new ≡ self.old) }
    {
        let pair = match self.new_pair(a, b, amount) {
            Ok(pair) => pair,
            Err(code) => return Err(BuildFault::Refused(code)),
        };
        if self.pairs.push(pair).is_err() {
            return Err(BuildFault::Memory);
        }
        enter(&mut self.rules, pair.a, pair.b, pair.rule);
        self.stage = Stage::Pairs;
        Ok(())
    }

    /// The pair rule of an item, or the first code that it breaks.
    fn new_pair(&self, a: &[u8], b: &[u8], amount: Option<i128>) -> Result<Pair, SiteCode>
        ensures good { OnOk result (IsGood self.now (pair_item a.now b.now amount)) }
        ensures first { IfOk result (λ p. p.a < length self.now.site.points) }
        ensures second { IfOk result (λ p. p.b < length self.now.site.points) }
        ensures item { IfOk result (λ p. pair_item a.now b.now amount ≡ item_of_pair self.now.site p) }
        ensures code { IfErr result (λ code. IsFirstCode self.now (pair_item a.now b.now amount) code) }
    {
        if !self.takes_pairs() {
            return Err(SiteCode::Form);
        }
        let Some(rule) = rule_of(amount) else {
            return Err(SiteCode::Range);
        };
        if !is_name(a) {
            return Err(SiteCode::BadName);
        }
        if !is_name(b) {
            return Err(SiteCode::BadName);
        }
        let Some(first) = self.number_of(a) else {
            return Err(SiteCode::UnknownName);
        };
        let Some(second) = self.number_of(b) else {
            return Err(SiteCode::UnknownName);
        };
        if first == second {
            return Err(SiteCode::SamePair);
        }
        if has_rule(self.rules.as_slice(), first, second) {
            return Err(SiteCode::SamePair);
        }
        Ok(Pair {
            a: first,
            b: second,
            rule,
        })
    }

    /// The site, which is valid. It is refused with `Form` where no type stands or a corner is
    /// missing, and it takes no memory.
    pub fn build(self) -> Result<Site, BuildFault>
        ensures good { OnOk result (IsGood self TheEnd) }
        ensures site { IfOk result (λ site. site ≡ self.site) }
        ensures refused { (code : SiteCode) → ((result ≡ Err (BuildFault.Refused code)) ↔ IsFirstCode self TheEnd code) }
        ensures memory { result ≢ Err BuildFault.Memory }
    {
        if !self.takes_pairs() {
            return Err(BuildFault::Refused(SiteCode::Form));
        }
        Ok(Site::new(
            self.version,
            self.mode,
            self.types,
            self.points,
            self.obstacles,
            self.pairs,
            self.rules,
        ))
    }

    /// Whether a cable type may stand here.
    fn takes_types(&self) -> bool
        ensures { result ≡ (self.now.stage == 2) }
    {
        self.stage == Stage::Types
    }

    /// Whether a point may stand here.
    fn takes_points(&self) -> bool
        ensures { result ≡ (is_settled self.now && nat_le self.now.stage 3) }
    {
        self.is_settled() && self.stage.is_at_most(Stage::Points)
    }

    /// Whether an obstacle may stand here.
    fn takes_obstacles(&self) -> bool
        ensures { result ≡ (is_settled self.now && nat_le self.now.stage 4) }
    {
        self.is_settled() && self.stage.is_at_most(Stage::Obstacles)
    }

    /// Whether a corner may stand here.
    fn takes_corners(&self) -> bool
        ensures { result ≡ ((self.now.stage == 4) && nat_le 1 self.now.missing) }
    {
        self.stage == Stage::Obstacles && self.missing >= 1
    }

    /// Whether a pair rule, or the end of the site, may stand here.
    fn takes_pairs(&self) -> bool
        ensures { result ≡ (is_settled self.now && nat_le self.now.stage 5) }
    {
        self.is_settled() && self.stage.is_at_most(Stage::Pairs)
    }

    /// Whether some type stands and no corner is missing.
    fn is_settled(&self) -> bool
        ensures { result ≡ is_settled self.now }
    {
        !self.types.is_empty() && self.missing == 0
    }

    /// The number of the point with this name.
    fn number_of(&self, name: &[u8]) -> Option<u32>
        ensures { MatchOption result
            (¬ HasNamed self.now name.now)
            (λ number. (number < length self.now.site.points) × (name_of self.now.site number ≡ name.now)) }
    {
        let number = number_in(&self.names, name)?;
        Some(number as u32)
    }

    /// Whether some point has this name.
    fn has_name(&self, name: &[u8]) -> bool
        ensures { IsTrue result ↔ HasNamed self.now name.now }
    {
        self.number_of(name).is_some()
    }
}

/// Whether the bytes are a name.
fn is_name(bytes: &[u8]) -> bool
    ensures { IsTrue result ↔ IsName bytes.now }
{
    Name::new(bytes).is_some()
}

/// How many corners the obstacles have together.
fn corner_count(obstacles: &[Obstacle]) -> usize
    requires { sum_by length obstacles.now ≤ 1024 }
    ensures { result ≡ sum_by length obstacles.now }
{
    let mut count = 0;
    for obstacle in obstacles {
        count += obstacle.as_slice().len();
    }
    count
}

/// Whether some point isn't outside the polygon.
fn has_inside(points: &[Point], corners: &[Place]) -> bool
    ensures { IsTrue result ↔ Any (λ p. ¬ (IsOutside p.at corners.now)) points.now }
{
    for point in points {
        if !outside(point.at, corners) {
            return true;
        }
    }
    false
}

/// Whether the corner is the last one that is missing, and some point isn't outside the obstacle
/// that is complete with it. The corners stay as they are.
fn encloses(points: &[Point], corners: &mut Vec<Place>, corner: Place, missing: usize) -> bool
    requires { vec_len corners.old < vec_capacity corners.old }
    ensures answer { IsTrue result
        ↔ ((missing ≡ 1) × Any (λ p. ¬ (IsOutside p.at (corners.old.items ++ corner ∷ []))) points.now) }
    ensures items { corners.new.items ≡ corners.old.items }
    ensures capacity { vec_capacity corners.new ≡ vec_capacity corners.old }
{
    if missing != 1 {
        return false;
    }
    corners.push_reserved(corner);
    let inside = has_inside(points, corners.as_slice());
    corners.pop();
    inside
}

/// Takes the corners as those of an obstacle more.
fn complete(alloc: Global, obstacles: &mut Vec<Obstacle>, corners: &mut Vec<Place>)
    requires { vec_len obstacles.old < vec_capacity obstacles.old }
    ensures obstacles { obstacles.new.items ≡ obstacles.old.items ++ corners.old.items ∷ [] }
    ensures corners { corners.new.items ≡ [] }
{
    let all = replace(corners, Vec::new(alloc));
    obstacles.push_reserved(Obstacle::new(all));
}

/// Whether some point stands at this place.
fn has_place(points: &[Point], at: Place) -> bool
    ensures { IsTrue result ↔ Any (λ p. IsAt (Some at.x) (Some at.y) p.at) points.now }
{
    for point in points {
        if point.at == at {
            return true;
        }
    }
    false
}
