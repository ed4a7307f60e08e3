//! A generated site, item by item.

ghost use Rattle.std.specs.Prelude.{◌≡◌, ℕ, ◌≤◌, ◌<◌, [], All, IfOk, OnOk};
ghost use Rattle.cable_definitions.specs.Drill.{IsDrillSite, state_after};
ghost use Rattle.drill_site.specs.Growing.{begun, TakesPoints, AreFirst, HasFirst, GainsTurbine, GainsBends, GainsSquare, IsBeside};

use crate::draws::draw;
use crate::steps::{add_corner, add_point, add_type, begin_obstacle, finish};
use cable_definitions::place::Place;
use cable_definitions::site::{CableType, Kind, Mode, Version};
use site_model::{Site, SiteBuilder};
use std::alloc::{AllocError, Global};

/// The site that the command `drill` generates from the number `k` with so many turbines: the same one for the same numbers, everywhere.
///
/// It has three cable types and two substations at its sides. The turbines stand near the corners of squares of 1,000 metres, ten in a row; how far from them, and
/// their powers, are drawn by a linear congruential generator with Knuth's constants for MMIX, which begins at `k`. Four bends stand around a square obstacle.
///
/// # Errors
///
/// `AllocError` where there is no memory.
pub fn drill_site(alloc: Global, k: u64, turbines: u32) -> Result<Site, AllocError>
    requires some { 1 ≤ turbines }
    requires few { turbines ≤ 200 }
    ensures { IfOk result (IsDrillSite k turbines) }
{
    let mut builder = SiteBuilder::new(alloc, Version::One, Mode::Tree)?;
    add_types(&mut builder)?;
    add_substations(&mut builder)?;
    add_turbines(alloc, &mut builder, k, turbines)?;
    add_bends(&mut builder)?;
    add_square(&mut builder)?;
    Ok(finish(builder))
}

/// Adds the three cable types.
fn add_types(builder: &mut SiteBuilder) -> Result<(), AllocError>
    requires { builder.old ≡ begun }
    ensures takes { OnOk result (TakesPoints builder.new) }
    ensures points { OnOk result (builder.new.site.points ≡ []) }
{
    add_type(builder, cable_type(30, 100))?;
    add_type(builder, cable_type(60, 170))?;
    add_type(builder, cable_type(90, 240))
}

/// The cable type of a capacity in power units and a price in cost units a metre, without loss.
fn cable_type(capacity: u32, price: u32) -> CableType
    ensures { result ≡ record { capacity = capacity; price = price; loss = 0 } }
{
    CableType {
        capacity,
        price,
        loss: 0,
    }
}

/// Adds the two substations.
fn add_substations(builder: &mut SiteBuilder) -> Result<(), AllocError>
    requires takes { TakesPoints builder.old }
    requires no_points { builder.old.site.points ≡ [] }
    ensures takes { OnOk result (TakesPoints builder.new) }
    ensures first { OnOk result ((k : ℕ) → AreFirst k 0 k builder.new.site.points) }
{
    let kind = Kind::Substation {
        feeders: 16,
        power: 3_000,
    };
    add_point(builder, b"S0", Place { x: -2_000, y: 0 }, kind)?;
    add_point(builder, b"S1", Place { x: 12_000, y: 0 }, kind)
}

/// Adds so many turbines, drawn from a state of the generator on.
fn add_turbines(
    alloc: Global,
    builder: &mut SiteBuilder,
    mut state: u64,
    turbines: u32,
) -> Result<(), AllocError>
    requires takes { TakesPoints builder.old }
    requires first { AreFirst state 0 state builder.old.site.points }
    requires few { turbines ≤ 200 }
    ensures takes { OnOk result (TakesPoints builder.new) }
    ensures first { OnOk result ((end : ℕ) × AreFirst state turbines end builder.new.site.points) }
{
    for number in 0..turbines {
        add_turbine(alloc, builder, number, &mut state)?;
    }
    Ok(())
}

/// Adds a turbine: its place is drawn, first x and then y, and then its power.
fn add_turbine(
    alloc: Global,
    builder: &mut SiteBuilder,
    number: u32,
    state: &mut u64,
) -> Result<(), AllocError>
    requires takes { TakesPoints builder.old }
    requires few { number < 200 }
    requires first { HasFirst number state.old builder.old.site.points }
    ensures takes { OnOk result (TakesPoints builder.new) }
    ensures gains { OnOk result (GainsTurbine builder.old number state.old builder.new) }
    ensures state { OnOk result (state.new ≡ state_after 3 state.old) }
{
    let name = format!(in alloc; "T{number}")?;
    let x = 1_000 * u64::from(number % 10) + draw(state, 401);
    let y = 1_000 * u64::from(number / 10) + draw(state, 401);
    let power = 8 + draw(state, 5);
    let at = Place {
        x: x as i64,
        y: y as i64,
    };
    let kind = Kind::Turbine {
        power: power as u32,
    };
    add_point(builder, name.as_bytes(), at, kind)
}

/// Adds the four bends around the obstacle.
fn add_bends(builder: &mut SiteBuilder) -> Result<(), AllocError>
    requires takes { TakesPoints builder.old }
    requires first { (n : ℕ) × (end : ℕ) × (n ≤ 200) × HasFirst n end builder.old.site.points }
    ensures takes { OnOk result (TakesPoints builder.new) }
    ensures bends { OnOk result (GainsBends builder.old.site.points builder.new.site.points) }
{
    add_point(builder, b"B0", Place { x: 4_450, y: 450 }, Kind::Bend)?;
    add_point(builder, b"B1", Place { x: 4_950, y: 450 }, Kind::Bend)?;
    add_point(builder, b"B2", Place { x: 4_450, y: 950 }, Kind::Bend)?;
    add_point(builder, b"B3", Place { x: 4_950, y: 950 }, Kind::Bend)
}

/// Adds the obstacle, a square between the bends.
fn add_square(builder: &mut SiteBuilder) -> Result<(), AllocError>
    requires takes { TakesPoints builder.old }
    requires beside { All IsBeside builder.old.site.points }
    ensures { OnOk result (GainsSquare builder.old builder.new) }
{
    begin_obstacle(builder)?;
    add_corner(builder, Place { x: 4_500, y: 500 })?;
    add_corner(builder, Place { x: 4_900, y: 500 })?;
    add_corner(builder, Place { x: 4_900, y: 900 })?;
    add_corner(builder, Place { x: 4_500, y: 900 })
}
