//! A whole input as a site in lines with a layout.

ghost use Rattle.std.specs.Prelude.{◌≡◌, ◌≤◌, [], All, None, OnOk};
ghost use Rattle.cable_definitions.specs.Refusal.{reader_at, AtJudged};
ghost use Rattle.cable_definitions.specs.Stream.{FaultsRose, FaultsOnlyRise, IsAtEnd};
ghost use Rattle.cable_text.specs.Lines.{ahead};
ghost use Rattle.proof_text.specs.Reading.{RefusedAfter, IfRefused, IfRead};
ghost use Rattle.proof_text.specs.Cables.{HasNumbersOf};
ghost use Rattle.run_definitions.specs.Effect.{effect};
ghost use Rattle.cable_run.specs.Steps.{ReadsLayout, ReadsToEnd};

use crate::fault::Fault;
use cable_text::{Lines, Source};
use layout_meaning::Layout;
use proof_text::{ItemFault, read_count, read_end, read_layout};
use site_model::Site;
use site_text::read_site;
use std::alloc::Global;

/// Reads a whole input as a site in lines with a layout that is judged.
pub(crate) fn read_site_and_layout<S: Source>(
    alloc: Global,
    input: &mut S,
) -> Result<(Site, Layout), Fault>
    ensures { ReadsLayout (effect (S.state input.old) (S.state input.new)) result }
{
    let mut lines = Lines::new(alloc)?;
    let mut layout = Layout::new(alloc)?;
    let site = read_site(alloc, &mut lines, input)?;
    read_cables(&site, &mut lines, input, &mut layout)?;
    Ok((site, layout))
}

/// Reads the number of cables, the cables in any order, and the end of the input.
fn read_cables<S: Source>(
    site: &Site,
    lines: &mut Lines,
    input: &mut S,
    layout: &mut Layout,
) -> Result<(), ItemFault>
    requires no_fault { lines.old.fault ≡ None }
    requires empty { layout.old ≡ [] }
    ensures reads { OnOk result (ReadsToEnd site.now (ahead lines.old (S.state input.old)) layout.new) }
    ensures listed { OnOk result (All (HasNumbersOf site.now) layout.new) }
    ensures whole { OnOk result (IsAtEnd (S.state input.new).bytes) }
    ensures refused { IfRefused result (λ refusal. RefusedAfter site.now (reader_at AtJudged) (ahead lines.old (S.state input.old)) lines.old.lines refusal) }
    ensures read { IfRead result (FaultsRose (S.state input.old) (S.state input.new)) }
    ensures count { FaultsOnlyRise (S.state input.old) (S.state input.new) }
{
    let count = match read_count(lines, input) {
        Ok(count) => count,
        Err(fault) => return Err(fault),
    };
    match read_layout(lines, input, site, count, false, layout) {
        Ok(()) => read_end(lines, input),
        Err(fault) => Err(fault),
    }
}
