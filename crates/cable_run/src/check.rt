//! The command `check`: a yes to a document that is accepted.

ghost use Rattle.cable_definitions.specs.Answers.{yes_line};
ghost use Rattle.cable_definitions.specs.Stream.{Writes};
ghost use Rattle.run_definitions.specs.Effect.{effect};
ghost use Rattle.cable_run.specs.Steps.{CheckGives};

use crate::document::read_checked;
use crate::fault::Fault;
use cable_definitions::claim::Claim;
use cable_text::{Failed, Field, Sink, Source, count_of, push_line};
use run_definitions::ending::Ending;
use std::alloc::Global;

/// Checks a document, and says yes where it is accepted.
pub(crate) fn check<S: Source, O: Sink>(
    alloc: Global,
    input: &mut S,
    out: &mut O,
) -> Result<Ending, Fault>
    ensures { CheckGives (effect (S.state input.old) (S.state input.new)) (effect (O.state out.old) (O.state out.new)) result }
{
    let (_site, accepted) = read_checked(alloc, input)?;
    write_yes(accepted.claim, out)?;
    Ok(Ending::Done)
}

/// Appends the yes to a claim.
fn write_yes<O: Sink>(claim: Claim, out: &mut O) -> Result<(), Failed>
    ensures { Writes result (O.state out.old) (O.state out.new) (yes_line claim) }
{
    let cost_word = Field::Word(b"cost");
    let bound_word = Field::Word(b"bound");
    match claim {
        Claim::Optimal(cost) => {
            push_line(
                b"yes",
                &[cost_word, count_of(cost), bound_word, count_of(cost)],
                out,
            )
        }
        Claim::Gap { cost, bound } => {
            push_line(
                b"yes",
                &[cost_word, count_of(cost), bound_word, count_of(bound)],
                out,
            )
        }
        Claim::Partial { bound, .. } => push_line(b"yes", &[bound_word, count_of(bound)], out),
        Claim::Infeasible => push_line(b"yes", &[Field::Word(b"infeasible")], out),
    }
}
