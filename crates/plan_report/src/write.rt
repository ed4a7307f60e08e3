//! The lines of a report, written.

ghost use Rattle.std.specs.Prelude.{◌≡◌, ◌∷◌, [], ◌≤◌, ◌<◌, length, map, All, codes};
ghost use Rattle.std.specs.List.{concat, enumerate_from};
ghost use Rattle.std.specs.Fmt.{decimal};
ghost use Rattle.cable_definitions.specs.Arcs.{IsPoint};
ghost use Rattle.cable_definitions.specs.Report.{report_text, report_cable, report_type, report_point};
ghost use Rattle.cable_definitions.specs.Text.{mode_line, claim_line};
ghost use Rattle.cable_definitions.specs.Stream.{Writes};
ghost use Rattle.cable_text.specs.Fields.{field_text};
ghost use Rattle.site_text.specs.Verdict.{NamesPoint};
ghost use Rattle.plan_report.specs.Reported.{IsReported};

use crate::sums::{cable_cost, cable_length, cost_of_type, count_of_type, length_of_type};
use cable_definitions::claim::Claim;
use cable_text::{Failed, Field, Sink, count_of, push_line};
use layout_meaning::{Cable, Flows, Layout, Outgoing};
use site_model::{Kind, Mode, Point, Site};
use site_text::write_verdict;

/// Appends the report of a layout and a claim: the mode; for each cable its ends by name, its type, its
/// length in metres, its load in power units and its cost; for each type how many cables have it, with
/// their length and cost together; for each substation its feeders and its power, used and at most; and
/// the verdict line.
///
/// # Errors
///
/// `Failed` only where the count of `out` rose or stands at its last value. Some first part of the
/// report was appended then.
pub fn report<O: Sink>(
    site: &Site,
    layout: &Layout,
    claim: Claim,
    out: &mut O,
) -> Result<(), Failed>
    requires cables { All (IsReported site.now layout.now) layout.now }
    requires claim { NamesPoint site.now claim }
    ensures { Writes result (O.state out.old) (O.state out.new) (report_text site.now layout.now claim) }
{
    let flows = Flows::new(site, Outgoing::new(layout.cables()));
    push_mode(site, out)?;
    push_cables(&flows, out)?;
    push_types(&flows, out)?;
    push_points(&flows, out)?;
    write_verdict(site, claim, out)
}

/// Appends `mode tree` or `mode strings`.
fn push_mode<O: Sink>(site: &Site, out: &mut O) -> Result<(), Failed>
    ensures { Writes result (O.state out.old) (O.state out.new) (mode_line site.now.mode) }
{
    match site.mode() {
        Mode::Tree => push_line(b"mode", &[Field::Word(b"tree")], out),
        Mode::Strings => push_line(b"mode", &[Field::Word(b"strings")], out),
    }
}

/// Appends a line for each cable.
fn push_cables<O: Sink>(flows: &Flows, out: &mut O) -> Result<(), Failed>
    requires cables { All (IsReported flows.now.site flows.now.cables) flows.now.cables }
    ensures { Writes result (O.state out.old) (O.state out.new) (concat (map (report_cable flows.now.site flows.now.cables) flows.now.cables)) }
{
    let cables = flows.cables();
    for cable in cables {
        push_cable(flows, *cable, out)?;
    }
    Ok(())
}

/// Appends the line of a cable.
fn push_cable<O: Sink>(flows: &Flows, cable: Cable, out: &mut O) -> Result<(), Failed>
    requires cable { IsReported flows.now.site flows.now.cables cable }
    ensures { Writes result (O.state out.old) (O.state out.new) (report_cable flows.now.site flows.now.cables cable) }
{
    let site = flows.site();
    let from = site.name(cable.from);
    let to = site.name(cable.to);
    let metres = cable_length(site, cable);
    let carried = flows.load(cable.from);
    let cost = cable_cost(flows, cable);
    let columns = [
        Field::Left(16, from),
        Field::Left(16, to),
        Field::Right(2, u64::from(cable.grade)),
        Field::Right(8, u64::from(metres)),
        Field::Right(8, u64::from(carried)),
        Field::Right(19, cost),
    ];
    push_line(b"cable", &columns, out)
}

/// Appends a line for each cable type.
fn push_types<O: Sink>(flows: &Flows, out: &mut O) -> Result<(), Failed>
    requires count { length flows.now.cables ≤ 256 }
    requires cables { All (IsReported flows.now.site flows.now.cables) flows.now.cables }
    ensures { Writes result (O.state out.old) (O.state out.new) (concat (map (λ q. report_type flows.now.site flows.now.cables q.0) (enumerate_from 0 flows.now.site.types))) }
{
    let site = flows.site();
    let count = site.types().len();
    for grade in 0..count as u32 {
        push_type(flows, grade, out)?;
    }
    Ok(())
}

/// Appends the line of a cable type.
fn push_type<O: Sink>(flows: &Flows, grade: u32, out: &mut O) -> Result<(), Failed>
    requires count { length flows.now.cables ≤ 256 }
    requires cables { All (IsReported flows.now.site flows.now.cables) flows.now.cables }
    ensures { Writes result (O.state out.old) (O.state out.new) (report_type flows.now.site flows.now.cables grade) }
{
    let site = flows.site();
    let cables = flows.cables();
    let number = count_of(u64::from(grade));
    let count = count_of(count_of_type(cables, grade) as u64);
    let metres = count_of(length_of_type(site, cables, grade));
    let cost = count_of(cost_of_type(flows, grade));
    let fields = [
        number,
        Field::Word(b"cables"),
        count,
        Field::Word(b"length"),
        metres,
        Field::Word(b"cost"),
        cost,
    ];
    push_line(b"type", &fields, out)
}

/// Appends a line for each substation.
fn push_points<O: Sink>(flows: &Flows, out: &mut O) -> Result<(), Failed>
    requires count { length flows.now.cables ≤ 256 }
    requires cables { All (IsReported flows.now.site flows.now.cables) flows.now.cables }
    ensures { Writes result (O.state out.old) (O.state out.new) (concat (map (λ q. report_point flows.now.site flows.now.cables q.0 q.1.name q.1.kind) (enumerate_from 0 flows.now.site.points))) }
{
    let site = flows.site();
    let points = site.points();
    for p in 0..points.len() as u32 {
        push_point(flows, p, &points[p as usize], out)?;
    }
    Ok(())
}

/// Appends the line of a substation; nothing for another point.
fn push_point<O: Sink>(flows: &Flows, p: u32, point: &Point, out: &mut O) -> Result<(), Failed>
    requires count { length flows.now.cables ≤ 256 }
    requires cables { All (IsReported flows.now.site flows.now.cables) flows.now.cables }
    ensures { Writes result (O.state out.old) (O.state out.new) (report_point flows.now.site flows.now.cables p point.now.name point.now.kind) }
{
    let Kind::Substation { feeders, power } = point.kind else {
        return Ok(());
    };
    let fields = [
        Field::Word(point.name.as_slice()),
        Field::Word(b"feeders"),
        count_of(flows.ends(p) as u64),
        Field::Word(b"of"),
        count_of(u64::from(feeders)),
        Field::Word(b"power"),
        count_of(u64::from(flows.load_into(p))),
        Field::Word(b"of"),
        count_of(u64::from(power)),
    ];
    push_line(b"substation", &fields, out)
}
