//! The notes on what went wrong.

ghost use Rattle.std.specs.Prelude.{◌≡◌, ◌⊎◌, ◌≤◌};
ghost use Rattle.cable_definitions.specs.Answers.{usage_note, site_note, document_note, write_fault_note};
ghost use Rattle.cable_definitions.specs.Stream.{Appends, Writes, FaultsOnlyRise};
ghost use Rattle.run_definitions.specs.Effect.{effect, Noted, NoteFailed};
ghost use Rattle.cable_run.specs.Noted.{IsNoted, EndsAs};

use crate::fault::Fault;
use cable_definitions::claim::Refusal;
use cable_text::{Failed, Field, Sink, count_of, push_line};
use run_definitions::ending::Ending;
use site_model::SiteCode;

/// Notes that the words are no command.
pub(crate) fn refuse_words<E: Sink>(note: &mut E) -> Ending
    ensures { ((result ≡ Ending.Usage) × Appends (E.state note.old).bytes (E.state note.new).bytes usage_note)
        ⊎ ((result ≡ Ending.WriteFault) × NoteFailed (effect (E.state note.old) (E.state note.new)) usage_note) }
{
    match note.push(b"usage: plan N [LANES], check, site, judge, report, drill K TURBINES N\n") {
        Ok(()) => Ending::Usage,
        Err(_) => note_write_fault(note),
    }
}

/// How the run of a command ends that gave this: as its work says, or as its fault does, which is noted.
pub(crate) fn end_of<E: Sink>(gave: Result<Ending, Fault>, note: &mut E) -> Ending
    ensures { EndsAs gave (effect (E.state note.old) (E.state note.new)) result }
{
    match gave {
        Ok(ending) => ending,
        Err(fault) => note_fault(fault, note),
    }
}

/// Notes why a command didn't do its work, and answers how the run ends then.
fn note_fault<E: Sink>(fault: Fault, note: &mut E) -> Ending
    ensures { IsNoted fault (effect (E.state note.old) (E.state note.new)) result }
{
    match fault {
        Fault::OfSite { code, place } => refuse_site(code, place, note),
        Fault::OfDocument(refusal) => refuse_document(refusal, note),
        Fault::Read => note_once(b"read fault\n", Ending::ReadFault, note),
        Fault::Write => note_once(b"write fault\n", Ending::WriteFault, note),
        Fault::Memory => note_once(b"want of memory\n", Ending::Memory, note),
    }
}

/// Notes the refusal of a site.
fn refuse_site<E: Sink>(code: SiteCode, place: u64, note: &mut E) -> Ending
    ensures { ((result ≡ Ending.SiteRefused) × Appends (E.state note.old).bytes (E.state note.new).bytes (site_note code place))
        ⊎ ((result ≡ Ending.WriteFault) × NoteFailed (effect (E.state note.old) (E.state note.new)) (site_note code place)) }
{
    match write_site_note(code, place, note) {
        Ok(()) => Ending::SiteRefused,
        Err(_) => note_write_fault(note),
    }
}

/// Notes the refusal of a document.
fn refuse_document<E: Sink>(refusal: Refusal, note: &mut E) -> Ending
    ensures { ((result ≡ Ending.DocumentRefused) × Appends (E.state note.old).bytes (E.state note.new).bytes (document_note refusal.cause refusal.line))
        ⊎ ((result ≡ Ending.WriteFault) × NoteFailed (effect (E.state note.old) (E.state note.new)) (document_note refusal.cause refusal.line)) }
{
    match write_document_note(refusal, note) {
        Ok(()) => Ending::DocumentRefused,
        Err(_) => note_write_fault(note),
    }
}

/// Appends the note on a refused site.
fn write_site_note<E: Sink>(code: SiteCode, place: u64, note: &mut E) -> Result<(), Failed>
    ensures { Writes result (E.state note.old) (E.state note.new) (site_note code place) }
{
    let refused = Field::Word(b"refused:");
    let at = count_of(place);
    push_line(
        b"site",
        &[refused, Field::Word(code.word()), Field::Word(b"at"), at],
        note,
    )
}

/// Appends the note on a refused document.
fn write_document_note<E: Sink>(refusal: Refusal, note: &mut E) -> Result<(), Failed>
    ensures { Writes result (E.state note.old) (E.state note.new) (document_note refusal.cause refusal.line) }
{
    let refused = Field::Word(b"refused:");
    let line = count_of(refusal.line);
    push_line(
        b"document",
        &[
            refused,
            Field::Word(refusal.cause.word()),
            Field::Word(b"at"),
            Field::Word(b"line"),
            line,
        ],
        note,
    )
}

/// Notes a write fault, whatever comes of it.
fn note_write_fault<E: Sink>(note: &mut E) -> Ending
    ensures ending { result ≡ Ending.WriteFault }
    ensures note { Noted (effect (E.state note.old) (E.state note.new)) write_fault_note }
    ensures count { FaultsOnlyRise (E.state note.old) (E.state note.new) }
{
    note_once(b"write fault\n", Ending::WriteFault, note)
}

/// Pushes a note once, whatever comes of it.
fn note_once<E: Sink>(text: &[u8], ending: Ending, note: &mut E) -> Ending
    ensures ending { result ≡ ending }
    ensures note { Noted (effect (E.state note.old) (E.state note.new)) text.now }
    ensures count { FaultsOnlyRise (E.state note.old) (E.state note.new) }
{
    let _ = note.push(text);
    ending
}
