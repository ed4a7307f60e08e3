//! The command `site`: the lines of a site in either form.

ghost use Rattle.run_definitions.specs.Effect.{effect};
ghost use Rattle.cable_run.specs.Steps.{SiteGives};

use crate::fault::Fault;
use cable_text::{Sink, Source};
use run_definitions::ending::Ending;
use site_input::read_front;
use site_text::write_site;
use std::alloc::Global;

/// Reads a site in either form, and writes it in lines.
pub(crate) fn site<S: Source, O: Sink>(
    alloc: Global,
    input: &mut S,
    out: &mut O,
) -> Result<Ending, Fault>
    ensures { SiteGives (effect (S.state input.old) (S.state input.new)) (effect (O.state out.old) (O.state out.new)) result }
{
    let site = read_front(alloc, input)?;
    write_site(&site, out)?;
    Ok(Ending::Done)
}
