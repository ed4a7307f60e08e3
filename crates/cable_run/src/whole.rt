//! A whole input as a site.

ghost use Rattle.run_definitions.specs.Effect.{effect};
ghost use Rattle.cable_run.specs.Steps.{ReadsSite};

use crate::fault::Fault;
use cable_text::Source;
use site_input::read_whole;
use site_model::Site;
use std::alloc::Global;

/// Reads a whole input as a site.
pub(crate) fn read_site<S: Source>(alloc: Global, input: &mut S) -> Result<Site, Fault>
    ensures { ReadsSite (effect (S.state input.old) (S.state input.new)) result }
{
    let site = read_whole(alloc, input)?;
    Ok(site)
}
