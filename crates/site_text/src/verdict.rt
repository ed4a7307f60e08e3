//! The verdict line of a document, written.

ghost use Rattle.cable_definitions.specs.Text.{claim_line};
ghost use Rattle.cable_definitions.specs.Stream.{Writes};
ghost use Rattle.site_text.specs.Verdict.{NamesPoint};

use cable_definitions::claim::Claim;
use cable_text::{Failed, Field, Sink, count_of, push_line};
use site_model::Site;

/// Appends the verdict line of a claim: its cost and its bound in cost units, or the turbine that is stuck.
///
/// # Errors
///
/// `Failed` only where the count of `out` rose or stands at its last value. Some first part of the
/// line was appended then.
pub fn write_verdict<O: Sink>(site: &Site, claim: Claim, out: &mut O) -> Result<(), Failed>
    requires { NamesPoint site.now claim }
    ensures { Writes result (O.state out.old) (O.state out.new) (claim_line site.now claim) }
{
    match claim {
        Claim::Optimal(cost) => push_line(b"optimal", &[count_of(cost)], out),
        Claim::Gap { cost, bound } => push_line(b"gap", &[count_of(cost), count_of(bound)], out),
        Claim::Partial { bound, stuck } => {
            let name = Field::Word(site.name(stuck));
            let fields = [count_of(bound), Field::Word(b"stuck"), name];
            push_line(b"open", &fields, out)
        }
        Claim::Infeasible => push_line(b"infeasible", &[], out),
    }
}
