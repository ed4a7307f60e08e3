//! The command `report`: the report of a document that is accepted.

ghost use Rattle.run_definitions.specs.Effect.{effect};
ghost use Rattle.cable_run.specs.Steps.{ReportGives};

use crate::document::read_checked;
use crate::fault::Fault;
use cable_text::{Sink, Source};
use plan_report::report as write_report;
use run_definitions::ending::Ending;
use std::alloc::Global;

/// Checks a document whole, and then writes its report.
pub(crate) fn report<S: Source, O: Sink>(
    alloc: Global,
    input: &mut S,
    out: &mut O,
) -> Result<Ending, Fault>
    ensures { ReportGives (effect (S.state input.old) (S.state input.new)) (effect (O.state out.old) (O.state out.new)) result }
{
    let (site, accepted) = read_checked(alloc, input)?;
    write_report(&site, &accepted.layout, accepted.claim, out)?;
    Ok(Ending::Done)
}
