//! The top call.

ghost use Rattle.std.specs.Prelude.{◌≡◌, ℕ, List, Some};
ghost use Rattle.cable_definitions.specs.declared.cable.Cable.{Cable};
ghost use Rattle.cable_definitions.specs.declared.claim.Claim.{Claim};
ghost use Rattle.cable_definitions.specs.declared.command.Command.{Command as AnyCommand};
ghost use Rattle.cable_definitions.specs.Site.{Site};
ghost use Rattle.cable_definitions.specs.Tree.{Says};
ghost use Rattle.cable_definitions.specs.Text.{site_lines};
ghost use Rattle.cable_definitions.specs.Document.{IsAcceptedDocument};
ghost use Rattle.cable_definitions.specs.Refusal.{IsSiteWithCables};
ghost use Rattle.cable_definitions.specs.Answers.{yes_line};
ghost use Rattle.run_definitions.specs.Bytes.{IsSiteOf, IsFrontSite};
ghost use Rattle.run_definitions.specs.Effect.{effect, Wrote, RanWell};
ghost use Rattle.run_definitions.specs.Words.{texts, AsksFor, IsNoCommand};
ghost use Rattle.run_definitions.specs.Yes.{IsTrueYes};
ghost use Rattle.run_definitions.specs.Ends.{UsageEnds, CommandEnds, PrintsPlanOf, IsJudgement, IsReport, NotUsed, WritesSummary};
ghost use Rattle.cable_run.specs.Steps.{IsObeyed, CommandGives};

use crate::check::check;
use crate::drill::drill;
use crate::fault::Fault;
use crate::judge::judge;
use crate::notes::{end_of, refuse_words};
use crate::plan::plan;
use crate::report::report;
use crate::site::site;
use crate::words::words_of;
use cable_definitions::command::Command;
use cable_text::{Sink, Source};
use run_definitions::ending::Ending;
use std::alloc::Global;

/// Does what the words ask for: reads `input`, writes the answer to `out`, and notes a refusal or a
/// fault to `note`, one line.
///
/// - `plan N` or `plan N LANES` reads a site, in lines or in JSON, to the end of the input, and prints a
///   document, with a proof that is made in at most N works: the cheapest legal layout with its cost, or
///   that there is none (`Done`, `Infeasible`); or, where N works didn't suffice, the best layout that was
///   found, and a bound below its cost (`Gap`), or a part of a layout, a turbine that can't be joined to it,
///   and a bound (`Partial`). `SiteRefused` exactly where the input is no site. LANES says how many nodes
///   are taken in each round before they are worked, 1 where it isn't given; the same words and the same
///   input give the same bytes.
/// - `check` reads a document to its end, and says yes exactly where it is accepted, which alone implies
///   its claim (`Done`; else `DocumentRefused`, with the first line at which a cause holds).
/// - `site` reads a site, in lines or in JSON, and writes its lines (`Done`, `SiteRefused`).
/// - `judge` reads a site in lines and a layout, and writes whether it is legal, with its cost, or the
///   first rule that it breaks (`Done`, `SiteRefused`, `DocumentRefused`).
/// - `report` reads a document as `check` does, and then writes its report (`Done`, `DocumentRefused`).
/// - `drill K TURBINES N` reads nothing. It generates a site from the number K with so many turbines, plans
///   it as `plan N` does, and writes one line: its words, how many candidate arcs the site has, and the
///   verdict (`Done`, `Infeasible`, `Gap`, `Partial`). The same words give the same line.
/// - Other words are no command: `Usage`.
///
/// `ReadFault` and `WriteFault` come only where a count of faults rose in the call. `Memory` is free.
/// A fault ends the run at once.
pub fn run<S: Source, O: Sink, E: Sink>(
    alloc: Global,
    words: &[String],
    input: &mut S,
    out: &mut O,
    note: &mut E,
) -> Ending
    // What a lender reads: where `check` ends with `Done`, the input begins with the lines of a valid site,
    // and the yes that was written is true: no legal layout of that site costs less than its bound, and
    // some legal layout has its cost.
    ensures bound { (bytes : List ℕ) → AsksFor (texts words.now) AnyCommand.Check → (S.state input.old).bytes ≡ Some bytes
        → result ≡ Ending.Done → IsTrueYes bytes (effect (O.state out.old) (O.state out.new)) }

    // For every site, every budget and every number of lanes, `plan` prints a document that `check` accepts:
    // its layout is legal at its cost, settled, and costs no more than the straight layout; no legal layout
    // costs less than its bound, which is at least the sum of the turbines' cheapest first cables, and on a
    // site without bends at least the cost of the cheapest in-tree; infeasible is printed only where there is
    // no legal layout; and a gap or a part only where the budget was used up and wasn't enough; unless a
    // stream failed or memory ran out.
    ensures headline { (n lanes : ℕ) (bytes : List ℕ) (s : Site) → AsksFor (texts words.now) (AnyCommand.Plan n lanes) → (S.state input.old).bytes ≡ Some bytes
        → IsSiteOf bytes s
        → RanWell (effect (S.state input.old) (S.state input.new)) (effect (O.state out.old) (O.state out.new)) (effect (E.state note.old) (E.state note.new)) result
        → PrintsPlanOf s n lanes (effect (S.state input.old) (S.state input.new)) (effect (O.state out.old) (O.state out.new)) result }

    // `check` says yes to each document that is accepted, and then its claim is true.
    ensures yes { (bytes : List ℕ) (s : Site) (claim : Claim) → AsksFor (texts words.now) AnyCommand.Check → (S.state input.old).bytes ≡ Some bytes
        → IsAcceptedDocument bytes s claim
        → RanWell (effect (S.state input.old) (S.state input.new)) (effect (O.state out.old) (O.state out.new)) (effect (E.state note.old) (E.state note.new)) result
        → (result ≡ Ending.Done) × Wrote (effect (O.state out.old) (O.state out.new)) (yes_line claim) × Says s claim }

    // `site` writes the lines of each site that stands at the front of the input.
    ensures lines { (bytes : List ℕ) (s : Site) → AsksFor (texts words.now) AnyCommand.Site → (S.state input.old).bytes ≡ Some bytes
        → IsFrontSite bytes s
        → RanWell (effect (S.state input.old) (S.state input.new)) (effect (O.state out.old) (O.state out.new)) (effect (E.state note.old) (E.state note.new)) result
        → (result ≡ Ending.Done) × Wrote (effect (O.state out.old) (O.state out.new)) (site_lines s) }

    // `judge` answers on each layout.
    ensures judgement { (bytes : List ℕ) (s : Site) (cables : List Cable) → AsksFor (texts words.now) AnyCommand.Judge → (S.state input.old).bytes ≡ Some bytes
        → IsSiteWithCables bytes s cables
        → RanWell (effect (S.state input.old) (S.state input.new)) (effect (O.state out.old) (O.state out.new)) (effect (E.state note.old) (E.state note.new)) result
        → (result ≡ Ending.Done) × ((text : List ℕ) × IsJudgement s cables text × Wrote (effect (O.state out.old) (O.state out.new)) text) }

    // `report` writes the report of each document that is accepted.
    ensures report { (bytes : List ℕ) (s : Site) (claim : Claim) → AsksFor (texts words.now) AnyCommand.Report → (S.state input.old).bytes ≡ Some bytes
        → IsAcceptedDocument bytes s claim
        → RanWell (effect (S.state input.old) (S.state input.new)) (effect (O.state out.old) (O.state out.new)) (effect (E.state note.old) (E.state note.new)) result
        → (result ≡ Ending.Done) × ((text : List ℕ) × IsReport (effect (S.state input.old) (S.state input.new)) text × Wrote (effect (O.state out.old) (O.state out.new)) text) }

    // For every number, every number of turbines and every budget, `drill` writes the summary of a plan of the
    // generated site, and reads nothing, unless a stream failed or memory ran out.
    ensures drill { (k turbines n : ℕ) → AsksFor (texts words.now) (AnyCommand.Drill k turbines n)
        → RanWell (effect (S.state input.old) (S.state input.new)) (effect (O.state out.old) (O.state out.new)) (effect (E.state note.old) (E.state note.new)) result
        → NotUsed (effect (S.state input.old) (S.state input.new)) × WritesSummary k turbines n (effect (O.state out.old) (O.state out.new)) result }

    // How each command ends, case by case.
    ensures ends { (command : AnyCommand) → AsksFor (texts words.now) command → CommandEnds command
        (effect (S.state input.old) (S.state input.new)) (effect (O.state out.old) (O.state out.new)) (effect (E.state note.old) (E.state note.new)) result }

    // Usage comes exactly where the words are no command, unless the note's push failed.
    ensures usage { result ≡ Ending.Usage → IsNoCommand (texts words.now) }
    ensures no_command { IsNoCommand (texts words.now) → UsageEnds
        (effect (S.state input.old) (S.state input.new)) (effect (O.state out.old) (O.state out.new)) (effect (E.state note.old) (E.state note.new)) result }
{
    match words_of(words) {
        None => refuse_words(note),
        Some(command) => end_of(obey(alloc, command, input, out), note),
    }
}

/// Does what a command asks for.
fn obey<S: Source, O: Sink>(
    alloc: Global,
    command: Command,
    input: &mut S,
    out: &mut O,
) -> Result<Ending, Fault>
    requires { IsObeyed command }
    ensures { CommandGives command (effect (S.state input.old) (S.state input.new)) (effect (O.state out.old) (O.state out.new)) result }
{
    match command {
        Command::Plan { budget, lanes } => plan(alloc, budget, lanes, input, out),
        Command::Check => check(alloc, input, out),
        Command::Site => site(alloc, input, out),
        Command::Judge => judge(alloc, input, out),
        Command::Report => report(alloc, input, out),
        Command::Drill {
            k,
            turbines,
            budget,
        } => drill(alloc, k, turbines, budget, out),
        Command::Migrate | Command::Rings | Command::Carry => unreachable!(),
    }
}
