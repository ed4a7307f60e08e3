//! The command `judge`: whether a layout is legal, with its cost, or the first rule that it breaks.

ghost use Rattle.std.specs.Prelude.{◌<◌, ℕ, List, All, length};
ghost use Rattle.cable_definitions.specs.Answers.{legal_line, broken_line};
ghost use Rattle.cable_definitions.specs.Stream.{Writes};
ghost use Rattle.run_definitions.specs.Effect.{effect};
ghost use Rattle.run_definitions.specs.Ends.{IsJudgement};
ghost use Rattle.proof_text.specs.Cables.{HasNumbersOf};
ghost use Rattle.layout_meaning.specs.Verdict.{IsVerdict};
ghost use Rattle.cable_run.specs.Steps.{JudgeGives};

use crate::fault::Fault;
use crate::layout::read_site_and_layout;
use cable_text::{Failed, Field, Sink, Source, count_of, push_line};
use layout_meaning::{Layout, Rule, Verdict, judge as judge_layout};
use run_definitions::ending::Ending;
use site_model::Site;
use std::alloc::Global;

/// Judges a layout by the rules, and answers in one line.
pub(crate) fn judge<S: Source, O: Sink>(
    alloc: Global,
    input: &mut S,
    out: &mut O,
) -> Result<Ending, Fault>
    ensures { JudgeGives (effect (S.state input.old) (S.state input.new)) (effect (O.state out.old) (O.state out.new)) result }
{
    let (site, layout) = read_site_and_layout(alloc, input)?;
    let verdict = judge_layout(&site, &layout);
    write_verdict(&site, &layout, verdict, out)?;
    Ok(Ending::Done)
}

/// Appends the answer on a layout.
fn write_verdict<O: Sink>(
    site: &Site,
    layout: &Layout,
    verdict: Verdict,
    out: &mut O,
) -> Result<(), Failed>
    requires listed { All (HasNumbersOf site.now) layout.now }
    requires verdict { IsVerdict site.now layout.now verdict }
    ensures { (text : List ℕ) × IsJudgement site.now layout.now text
        × Writes result (O.state out.old) (O.state out.new) text }
{
    match verdict {
        Verdict::Legal(cost) => write_legal(cost, out),
        Verdict::Broken(rule, a, b) => write_broken(site, rule, a, b, out),
    }
}

/// Appends that the layout is legal, with its cost.
fn write_legal<O: Sink>(cost: u64, out: &mut O) -> Result<(), Failed>
    ensures { Writes result (O.state out.old) (O.state out.new) (legal_line cost) }
{
    push_line(b"legal", &[count_of(cost)], out)
}

/// Appends the first broken rule with its two points by name.
fn write_broken<O: Sink>(site: &Site, rule: Rule, a: u32, b: u32, out: &mut O) -> Result<(), Failed>
    requires first { a < length site.now.points }
    requires second { b < length site.now.points }
    ensures { Writes result (O.state out.old) (O.state out.new) (broken_line site.now rule a b) }
{
    let first = Field::Word(site.name(a));
    let second = Field::Word(site.name(b));
    push_line(b"broken", &[Field::Word(rule.word()), first, second], out)
}
