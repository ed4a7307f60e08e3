//! The budget, rows, works, cables and the verdict of a document, each as its lines.

ghost use Rattle.std.specs.Prelude.{◌≡◌, ◌∷◌, [], ◌++◌, ◌<◌, length, map, codes, All, slice_get};
ghost use Rattle.std.specs.List.{concat};
ghost use Rattle.std.specs.Fmt.{decimal};
ghost use Rattle.cable_definitions.specs.Text.{line, cable_line, claim_line, row_line, weight_line, act_line, why_words, item_lines};
ghost use Rattle.cable_definitions.specs.Tree.{WorkItem};
ghost use Rattle.cable_definitions.specs.Stream.{Writes};
ghost use Rattle.cable_text.specs.Fields.{field_text};
ghost use Rattle.site_text.specs.Verdict.{NamesPoint};
ghost use Rattle.proof_lines.specs.Written.{EndsAtPoints, layout_lines, spaced_number};

use cable_definitions::cable::Cable;
use cable_definitions::claim::Claim;
use cable_definitions::row::{Act, RowKind, Why};
use cable_text::{Failed, Field, LineBuffer, Sink, count_of, push_line, push_number};
use layout_meaning::Layout;
use node_works::Work;
use site_model::Site;
use site_text::write_verdict;

/// Appends the line `budget N` of a document.
///
/// # Errors
///
/// `Failed` only where the count of `out` rose or stands at its last value. Some first part of the
/// line was appended then.
pub fn write_budget<O: Sink>(budget: u32, out: &mut O) -> Result<(), Failed>
    ensures { Writes result (O.state out.old) (O.state out.new) (line (codes "budget" ∷ decimal budget ∷ [])) }
{
    push_line(b"budget", &[count_of(u64::from(budget))], out)
}

/// Appends the line `layout K` with the number of cables, and a line for each cable, in the order of
/// the layout.
///
/// # Errors
///
/// `Failed` only where the count of `out` rose or stands at its last value. Some first part of the
/// lines was appended then.
pub fn write_layout<O: Sink>(site: &Site, layout: &Layout, out: &mut O) -> Result<(), Failed>
    requires { All (EndsAtPoints site.now) layout.now }
    ensures { Writes result (O.state out.old) (O.state out.new) (layout_lines site.now layout.now) }
{
    push_header(layout, out)?;
    push_cables(site, layout.cables(), out)
}

/// Appends the line `layout K` with the number of cables.
fn push_header<O: Sink>(layout: &Layout, out: &mut O) -> Result<(), Failed>
    ensures { Writes result (O.state out.old) (O.state out.new) (line (codes "layout" ∷ decimal (length layout.now) ∷ [])) }
{
    let count = layout.cables().len() as u64;
    push_line(b"layout", &[count_of(count)], out)
}

/// Appends a line for each cable.
fn push_cables<O: Sink>(site: &Site, cables: &[Cable], out: &mut O) -> Result<(), Failed>
    requires { All (EndsAtPoints site.now) cables.now }
    ensures { Writes result (O.state out.old) (O.state out.new) (concat (map (cable_line site.now) cables.now)) }
{
    for cable in cables {
        push_cable(site, *cable, out)?;
    }
    Ok(())
}

/// Appends the line of a cable.
fn push_cable<O: Sink>(site: &Site, cable: Cable, out: &mut O) -> Result<(), Failed>
    requires { EndsAtPoints site.now cable }
    ensures { Writes result (O.state out.old) (O.state out.new) (cable_line site.now cable) }
{
    let from = Field::Word(site.name(cable.from));
    let to = Field::Word(site.name(cable.to));
    push_line(b"cable", &[from, to, count_of(u64::from(cable.grade))], out)
}

/// Appends the verdict line of a claim and the line `end document`.
///
/// # Errors
///
/// `Failed` only where the count of `out` rose or stands at its last value. Some first part of the
/// lines was appended then.
pub fn write_claim<O: Sink>(site: &Site, claim: Claim, out: &mut O) -> Result<(), Failed>
    requires { NamesPoint site.now claim }
    ensures { Writes result (O.state out.old) (O.state out.new) (claim_line site.now claim ++ line (codes "end" ∷ codes "document" ∷ [])) }
{
    write_verdict(site, claim, out)?;
    push_line(b"end", &[Field::Word(b"document")], out)
}

/// Appends the line of a row: its kind and its members.
///
/// # Errors
///
/// `Failed` only where the count of `out` rose or stands at its last value. Some first part of the
/// line was appended then.
pub fn write_row<O: Sink>(kind: RowKind, members: &[u32], out: &mut O) -> Result<(), Failed>
    ensures { Writes result (O.state out.old) (O.state out.new) (row_line (record { kind = kind; members = members.now })) }
{
    let mut buffer = LineBuffer::new();
    match push_row(kind, members, &mut buffer) {
        Ok(()) => out.push(buffer.as_slice()),
        // A line that doesn't fit is written piece by piece.
        Err(Failed) => push_row(kind, members, out),
    }
}

/// Appends the line of a row piece by piece.
fn push_row<O: Sink>(kind: RowKind, members: &[u32], out: &mut O) -> Result<(), Failed>
    ensures { Writes result (O.state out.old) (O.state out.new) (row_line (record { kind = kind; members = members.now })) }
{
    out.push(b"row ")?;
    out.push(kind.word())?;
    push_members(members, out)?;
    out.push(b"\n")
}

/// Appends the members with a space before each.
fn push_members<O: Sink>(members: &[u32], out: &mut O) -> Result<(), Failed>
    ensures { Writes result (O.state out.old) (O.state out.new) (concat (map spaced_number members.now)) }
{
    for member in members {
        push_member(*member, out)?;
    }
    Ok(())
}

/// Appends a space and a number.
fn push_member<O: Sink>(member: u32, out: &mut O) -> Result<(), Failed>
    ensures { Writes result (O.state out.old) (O.state out.new) (spaced_number member) }
{
    out.push(b" ")?;
    push_number(i128::from(member), out)
}

/// Appends the lines of a work: its node and the number of its weights, a line for each weight, and
/// the act.
///
/// # Errors
///
/// `Failed` only where the count of `out` rose or stands at its last value. Some first part of the
/// lines was appended then.
pub fn write_work<O: Sink>(work: &Work, out: &mut O) -> Result<(), Failed>
    ensures { Writes result (O.state out.old) (O.state out.new) (item_lines (WorkItem work.now.node work.now.weights work.now.act)) }
{
    let weights = work.weights.as_slice();
    push_node(work.node, weights.len() as u64, out)?;
    push_weights(weights, out)?;
    push_act(work.act, out)
}

/// Appends the line `work NODE COUNT`.
fn push_node<O: Sink>(node: u32, count: u64, out: &mut O) -> Result<(), Failed>
    ensures { Writes result (O.state out.old) (O.state out.new) (line (codes "work" ∷ decimal node ∷ decimal count ∷ [])) }
{
    push_line(b"work", &[count_of(u64::from(node)), count_of(count)], out)
}

/// Appends a line for each weight.
fn push_weights<O: Sink>(weights: &[(u32, i128)], out: &mut O) -> Result<(), Failed>
    ensures { Writes result (O.state out.old) (O.state out.new) (concat (map weight_line weights.now)) }
{
    for weight in weights {
        push_weight(*weight, out)?;
    }
    Ok(())
}

/// Appends the line of a weight.
fn push_weight<O: Sink>(weight: (u32, i128), out: &mut O) -> Result<(), Failed>
    ensures { Writes result (O.state out.old) (O.state out.new) (weight_line weight) }
{
    let row = count_of(u64::from(weight.0));
    push_line(b"by", &[row, Field::Number(weight.1)], out)
}

/// Appends the line of an act.
fn push_act<O: Sink>(act: Act, out: &mut O) -> Result<(), Failed>
    ensures { Writes result (O.state out.old) (O.state out.new) (act_line act) }
{
    match act {
        Act::Split(arc) => push_line(b"split", &[count_of(u64::from(arc))], out),
        Act::Stop => push_line(b"stop", &[], out),
        Act::Dead(why) => push_why(why, out),
        Act::Full => push_line(b"full", &[], out),
    }
}

/// Appends the line of a reason for which a node is dead.
fn push_why<O: Sink>(why: Why, out: &mut O) -> Result<(), Failed>
    ensures { Writes result (O.state out.old) (O.state out.new) (line (codes "dead" ∷ why_words why)) }
{
    match why {
        Why::Row(row) => push_reason(b"row", row, out),
        Why::Pair(a, b) => {
            let first = count_of(u64::from(a));
            let second = count_of(u64::from(b));
            push_line(b"dead", &[Field::Word(b"pair"), first, second], out)
        }
        Why::Load(point) => push_reason(b"load", point, out),
        Why::Loop(point) => push_reason(b"loop", point, out),
        Why::Power(point) => push_reason(b"power", point, out),
        Why::Ceiling => push_line(b"dead", &[Field::Word(b"ceiling")], out),
    }
}

/// Appends the line of a reason with one number.
fn push_reason<O: Sink>(word: &[u8], number: u32, out: &mut O) -> Result<(), Failed>
    ensures { Writes result (O.state out.old) (O.state out.new) (line (codes "dead" ∷ word.now ∷ decimal number ∷ [])) }
{
    let field = count_of(u64::from(number));
    push_line(b"dead", &[Field::Word(word), field], out)
}
