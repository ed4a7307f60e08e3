//! Sites written in line form.

ghost use Rattle.std.specs.Prelude.{◌≡◌, length, map};
ghost use Rattle.std.specs.List.{concat};
ghost use Rattle.cable_definitions.specs.Text.{number, site_line, mode_line, type_line, point_line, corner_line, obstacle_lines, pair_line, site_lines};
ghost use Rattle.std.specs.Fmt.{decimal};
ghost use Rattle.cable_definitions.specs.Stream.{Writes};
ghost use Rattle.cable_text.specs.Fields.{field_text};

use cable_text::{Failed, Field, Sink, count_of, push_line};
use site_model::{CableType, Kind, Mode, Obstacle, Pair, PairRule, Place, Point, Site, Version};

/// Appends the one text of the site in line form, up to and with `end site`.
///
/// # Errors
///
/// `Failed` only where the count of `out` rose or stands at its last value. Some first part of the
/// text was appended then.
pub fn write_site<O: Sink>(site: &Site, out: &mut O) -> Result<(), Failed>
    ensures { Writes result (O.state out.old) (O.state out.new) (site_lines site.now) }
{
    push_version(site.version(), out)?;
    push_mode(site.mode(), out)?;
    push_types(site.version(), site.types(), out)?;
    push_points(site.points(), out)?;
    push_obstacles(site.obstacles(), out)?;
    push_pairs(site, out)?;
    push_line(b"end", &[Field::Word(b"site")], out)
}

/// Appends `site 1` or `site 2`.
fn push_version<O: Sink>(version: Version, out: &mut O) -> Result<(), Failed>
    ensures { Writes result (O.state out.old) (O.state out.new) (site_line version) }
{
    match version {
        Version::One => push_line(b"site", &[Field::Word(b"1")], out),
        Version::Two => push_line(b"site", &[Field::Word(b"2")], out),
    }
}

/// Appends `mode tree` or `mode strings`.
fn push_mode<O: Sink>(mode: Mode, out: &mut O) -> Result<(), Failed>
    ensures { Writes result (O.state out.old) (O.state out.new) (mode_line mode) }
{
    match mode {
        Mode::Tree => push_line(b"mode", &[Field::Word(b"tree")], out),
        Mode::Strings => push_line(b"mode", &[Field::Word(b"strings")], out),
    }
}

/// Appends the lines of the cable types.
fn push_types<O: Sink>(version: Version, types: &[CableType], out: &mut O) -> Result<(), Failed>
    ensures { Writes result (O.state out.old) (O.state out.new) (concat (map (type_line version) types.now)) }
{
    for cable_type in types {
        push_type(version, *cable_type, out)?;
    }
    Ok(())
}

/// Appends the line of a cable type.
fn push_type<O: Sink>(version: Version, cable_type: CableType, out: &mut O) -> Result<(), Failed>
    ensures { Writes result (O.state out.old) (O.state out.new) (type_line version cable_type) }
{
    let capacity = small_count(cable_type.capacity);
    let price = small_count(cable_type.price);
    match version {
        Version::One => push_line(b"type", &[capacity, price], out),
        Version::Two => push_line(
            b"type",
            &[capacity, price, small_count(cable_type.loss)],
            out,
        ),
    }
}

/// Appends the lines of the points.
fn push_points<O: Sink>(points: &[Point], out: &mut O) -> Result<(), Failed>
    ensures { Writes result (O.state out.old) (O.state out.new) (concat (map point_line points.now)) }
{
    for point in points {
        push_point(point, out)?;
    }
    Ok(())
}

/// Appends the line of a point.
fn push_point<O: Sink>(point: &Point, out: &mut O) -> Result<(), Failed>
    ensures { Writes result (O.state out.old) (O.state out.new) (point_line point.now) }
{
    let name = Field::Word(point.name.as_slice());
    let x = x_of(point.at);
    let y = y_of(point.at);
    match point.kind {
        Kind::Turbine { power } => push_line(b"turbine", &[name, x, y, small_count(power)], out),
        Kind::Substation { feeders, power } => {
            let fields = [name, x, y, small_count(feeders), small_count(power)];
            push_line(b"substation", &fields, out)
        }
        Kind::Bend => push_line(b"bend", &[name, x, y], out),
    }
}

/// A number that isn't negative.
fn small_count(value: u32) -> Field<'static>
    ensures { field_text result ≡ decimal value }
{
    count_of(u64::from(value))
}

/// The first coordinate of a place.
fn x_of(place: Place) -> Field<'static>
    ensures { field_text result ≡ number place.x }
{
    Field::Number(i128::from(place.x))
}

/// The second coordinate of a place.
fn y_of(place: Place) -> Field<'static>
    ensures { field_text result ≡ number place.y }
{
    Field::Number(i128::from(place.y))
}

/// Appends the lines of the obstacles.
fn push_obstacles<O: Sink>(obstacles: &[Obstacle], out: &mut O) -> Result<(), Failed>
    ensures { Writes result (O.state out.old) (O.state out.new) (concat (map obstacle_lines obstacles.now)) }
{
    for obstacle in obstacles {
        push_obstacle(obstacle, out)?;
    }
    Ok(())
}

/// Appends the line of an obstacle and those of its corners.
fn push_obstacle<O: Sink>(obstacle: &Obstacle, out: &mut O) -> Result<(), Failed>
    ensures { Writes result (O.state out.old) (O.state out.new) (obstacle_lines obstacle.now) }
{
    let corners = obstacle.as_slice();
    push_line(b"obstacle", &[len_of(corners)], out)?;
    push_corners(corners, out)
}

/// How many corners there are.
fn len_of(corners: &[Place]) -> Field<'static>
    ensures { field_text result ≡ decimal (length corners.now) }
{
    Field::Number(corners.len() as i128)
}

/// Appends the lines of the corners.
fn push_corners<O: Sink>(corners: &[Place], out: &mut O) -> Result<(), Failed>
    ensures { Writes result (O.state out.old) (O.state out.new) (concat (map corner_line corners.now)) }
{
    for corner in corners {
        push_corner(*corner, out)?;
    }
    Ok(())
}

/// Appends the line of a corner.
fn push_corner<O: Sink>(corner: Place, out: &mut O) -> Result<(), Failed>
    ensures { Writes result (O.state out.old) (O.state out.new) (corner_line corner) }
{
    push_line(b"corner", &[x_of(corner), y_of(corner)], out)
}

/// Appends the lines of the pair rules.
fn push_pairs<O: Sink>(site: &Site, out: &mut O) -> Result<(), Failed>
    ensures { Writes result (O.state out.old) (O.state out.new) (concat (map (pair_line site.now) site.now.pairs)) }
{
    for pair in site.pairs() {
        push_pair(site, *pair, out)?;
    }
    Ok(())
}

/// Appends the line of a pair rule.
fn push_pair<O: Sink>(site: &Site, pair: Pair, out: &mut O) -> Result<(), Failed>
    ensures { Writes result (O.state out.old) (O.state out.new) (pair_line site.now pair) }
{
    let a = Field::Word(site.name(pair.a));
    let b = Field::Word(site.name(pair.b));
    match pair.rule {
        PairRule::Charge(amount) => { push_line(b"charge", &[a, b, count_of(amount)], out) }
        PairRule::Closed => push_line(b"closed", &[a, b], out),
    }
}
