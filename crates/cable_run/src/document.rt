//! A whole input as a document.

ghost use Rattle.run_definitions.specs.Effect.{effect};
ghost use Rattle.cable_run.specs.Steps.{ReadsDocument};

use crate::fault::{Fault, in_document};
use cable_text::{Lines, Source};
use document_check::{Accepted, read_document};
use site_model::Site;
use site_text::read_site;
use std::alloc::Global;

/// Reads a whole input as a document, and checks it.
pub(crate) fn read_checked<S: Source>(
    alloc: Global,
    input: &mut S,
) -> Result<(Site, Accepted), Fault>
    ensures { ReadsDocument (effect (S.state input.old) (S.state input.new)) result }
{
    let mut lines = Lines::new(alloc)?;
    let site = match read_site(alloc, &mut lines, input) {
        Ok(site) => site,
        Err(fault) => return Err(in_document(fault)),
    };
    let accepted = read_document(alloc, &site, &mut lines, input)?;
    Ok((site, accepted))
}
