//! The steps of a builder that refuses none of them.

ghost use Rattle.std.specs.Prelude.{◌≡◌, ◌≢◌, ◌++◌, [], ◌∷◌, ◌≤◌, ◌<◌, All, Err, IfOk, Ok, OnOk, Some, length, pos};
ghost use Rattle.cable_definitions.specs.declared.site.SiteCode.{SiteCode as AnyCode};
ghost use Rattle.cable_definitions.specs.declared.site.Version.TheVariants.{One};
ghost use Rattle.cable_definitions.specs.Naming.{IsName};
ghost use Rattle.cable_definitions.specs.Site.{IsCableType, IsKind};
ghost use Rattle.cable_definitions.specs.Plane.{IsOutside};
ghost use Rattle.cable_definitions.specs.Items.{ACorner, Adds, raw_kind};
ghost use Rattle.site_model.specs.Building.{kind_item};
ghost use Rattle.drill_site.specs.Growing.{Gains, IsApart, TakesPoints};

use cable_definitions::place::Place;
use cable_definitions::site::{CableType, Kind};
use site_model::{BuildFault, RawKind, Site, SiteBuilder};
use std::alloc::AllocError;

/// What a step that isn't refused comes to: it fails where there is no memory.
fn made(step: Result<(), BuildFault>) -> Result<(), AllocError>
    requires { (code : AnyCode) → step ≢ Err (BuildFault.Refused code) }
    ensures { OnOk result (step ≡ Ok tt) }
{
    match step {
        Ok(()) => Ok(()),
        Err(BuildFault::Memory) => Err(AllocError),
        Err(BuildFault::Refused(_)) => unreachable!(),
    }
}

/// Adds a cable type, where another one may stand.
pub(crate) fn add_type(builder: &mut SiteBuilder, cable: CableType) -> Result<(), AllocError>
    requires stage { builder.old.stage ≡ 2 }
    requires version { builder.old.site.version ≡ One }
    requires few { length builder.old.site.types < 8 }
    requires in_range { IsCableType One cable }
    ensures { OnOk result (builder.new ≡ record builder.old { site = record builder.old.site { types = builder.old.site.types ++ cable ∷ [] } }) }
{
    made(builder.add_type(i128::from(cable.capacity), i128::from(cable.price), None))
}

/// Adds a point whose name and place no point has so far.
pub(crate) fn add_point(
    builder: &mut SiteBuilder,
    name: &[u8],
    at: Place,
    kind: Kind,
) -> Result<(), AllocError>
    requires takes { TakesPoints builder.old }
    requires named { IsName name.now }
    requires kind { IsKind kind }
    requires few { length builder.old.site.points < 256 }
    requires apart { All (IsApart name.now at.x at.y) builder.old.site.points }
    ensures gains { OnOk result (Gains builder.old name.now at.x at.y kind builder.new) }
    ensures takes { OnOk result (TakesPoints builder.new) }
{
    made(builder.add_point(name, i128::from(at.x), i128::from(at.y), raw_of(kind)))
}

/// The kind with its numbers as they are given.
fn raw_of(kind: Kind) -> RawKind
    ensures { kind_item result ≡ raw_kind kind }
{
    match kind {
        Kind::Turbine { power } => RawKind::Turbine(i128::from(power)),
        Kind::Substation { feeders, power } => {
            RawKind::Substation(i128::from(feeders), i128::from(power))
        }
        Kind::Bend => RawKind::Bend,
    }
}

/// Begins the one obstacle, of four corners.
pub(crate) fn begin_obstacle(builder: &mut SiteBuilder) -> Result<(), AllocError>
    requires takes { TakesPoints builder.old }
    ensures { OnOk result (builder.new ≡ record builder.old { stage = 4; corners = []; missing = 4 }) }
{
    made(builder.add_obstacle(4))
}

/// Adds the next corner of the obstacle, which no point stands in once it is complete.
pub(crate) fn add_corner(builder: &mut SiteBuilder, at: Place) -> Result<(), AllocError>
    requires stage { builder.old.stage ≡ 4 }
    requires missing { 1 ≤ builder.old.missing }
    requires clear { builder.old.missing ≡ 1 → All (λ p. IsOutside p.at (builder.old.corners ++ at ∷ [])) builder.old.site.points }
    ensures { OnOk result (Adds builder.old (ACorner (Some at.x) (Some at.y)) builder.new) }
{
    made(builder.add_corner(i128::from(at.x), i128::from(at.y)))
}

/// The site of a builder that may end.
pub(crate) fn finish(builder: SiteBuilder) -> Site
    requires stage { builder.stage ≤ 5 }
    requires some_types { 1 ≤ length builder.site.types }
    requires complete { builder.missing ≡ 0 }
    ensures { result ≡ builder.site }
{
    match builder.build() {
        Ok(site) => site,
        Err(_) => unreachable!(),
    }
}
