//! What the tests of whole runs share: a run over memory, sites and documents.
#![tactic(auto)]

use cable_text::{MemorySink, MemorySource};
pub use sample_sites::{FIRST, FORK, ONE_FEEDER};
use std::alloc::{AllocError, Global};

/// What a program reads, writes and notes to, in memory.
#[derive(Drop)]
pub struct Streams {
    pub input: MemorySource,
    pub out: MemorySink,
    pub note: MemorySink,
}

/// A program that is run over memory.
pub trait Program {
    /// Does what the words ask for over these streams, and answers the status that it ends with.
    fn run(alloc: Global, words: &[String], streams: &mut Streams) -> u8;
}

/// What a run printed and noted, and its status.
#[derive(Drop)]
pub struct Ran {
    pub status: u8,
    pub out: Vec<u8>,
    pub note: Vec<u8>,
}

/// The most bytes that a run prints in these tests.
const ROOM: usize = 1 << 14;

/// Runs the program over memory: the input in pieces of 16 bytes, and the pulls, pushes and notes of
/// these numbers fail.
///
/// # Errors
///
/// `AllocError` where there is no memory for the words, the streams or what was written.
pub fn ran_with<P: Program>(
    alloc: Global,
    words: &[&str],
    input: &[u8],
    pulls: &[u64],
    pushes: &[u64],
    notes: &[u64],
) -> Result<Ran, AllocError> {
    ran_in::<P>(alloc, ROOM, words, input, pulls, pushes, notes)
}

/// The same where a run may print so many bytes.
fn ran_in<P: Program>(
    alloc: Global,
    room: usize,
    words: &[&str],
    input: &[u8],
    pulls: &[u64],
    pushes: &[u64],
    notes: &[u64],
) -> Result<Ran, AllocError> {
    let mut texts = Vec::new(alloc);
    for word in words {
        texts.push(String::from_str(alloc, word)?)?;
    }
    let bytes = Vec::from_slice(alloc, input)?;
    let mut streams = Streams {
        input: MemorySource::new(bytes, 16, Vec::from_slice(alloc, pulls)?),
        out: MemorySink::new(alloc, room, Vec::from_slice(alloc, pushes)?)?,
        note: MemorySink::new(alloc, 512, Vec::from_slice(alloc, notes)?)?,
    };
    Ok(Ran {
        status: P::run(alloc, texts.as_slice(), &mut streams),
        out: Vec::from_slice(alloc, streams.out.taken())?,
        note: Vec::from_slice(alloc, streams.note.taken())?,
    })
}

/// Runs a command on an input, and no stream fails.
///
/// # Errors
///
/// `AllocError` where there is no memory for the run.
pub fn run_on<P: Program>(alloc: Global, words: &[&str], input: &str) -> Result<Ran, AllocError> {
    ran_with::<P>(alloc, words, input.as_bytes(), &[], &[], &[])
}

/// Runs a command on an input where it may print up to 4 MiB, and no stream fails.
///
/// # Errors
///
/// `AllocError` where there is no memory for the run.
pub fn run_long<P: Program>(
    alloc: Global,
    words: &[&str],
    input: &[u8],
) -> Result<Ran, AllocError> {
    ran_in::<P>(alloc, 1 << 22, words, input, &[], &[], &[])
}

/// A document of the first site.
pub const DOCUMENT: &str =
    "site 1\nmode tree\ntype 400 100\nsubstation S 0 0 4 10000\nturbine A 300 400 100\nend site\nbudget 8191\nrow out 1\nwork 1 0\nsplit 0\nwork 2 0\nfull\nwork 3 0\ndead row 0\nlayout 1\ncable A S 0\noptimal 50000\nend document\n";

/// A document of a part: the substation takes one cable, which bears two turbines, and C is the third.
pub const OPEN: &str =
    "site 1\nmode tree\ntype 200 1\nsubstation S 0 0 1 10000\nturbine A 0 1000 100\nturbine B 1000 0 100\nturbine C 1000 1000 100\nend site\nbudget 1\nwork 1 0\nstop\nlayout 2\ncable A S 0\ncable B A 0\nopen 0 stuck C\nend document\n";

/// The text with one part of it, which stands in it, changed.
///
/// # Errors
///
/// `AllocError` where there is no memory for the text.
pub fn changed(alloc: Global, text: &str, old: &str, new: &str) -> Result<String, AllocError> {
    let mut changed = String::new(alloc);
    if let Some((front, back)) = text.split_once(old) {
        changed.push_str(front)?;
        changed.push_str(new)?;
        changed.push_str(back)?;
    }
    Ok(changed)
}

/// The cause and the line of a note.
pub fn cause_of(note: &[u8]) -> Option<&[u8]> {
    match note.strip_prefix(b"document refused: ".as_slice()) {
        Some(rest) => rest.strip_suffix(b"\n".as_slice()),
        None => None,
    }
}

/// Whether a command ends with this status on an input, with this text written, or noted where the status isn't 0, and nothing on the other stream.
///
/// # Errors
///
/// Want of memory.
pub fn answers<P: Program>(
    alloc: Global,
    words: &[&str],
    input: &str,
    status: u8,
    text: &str,
) -> Result<bool, AllocError> {
    let ran = run_on::<P>(alloc, words, input)?;
    Ok(ran.status == status && tells(&ran, text.as_bytes()))
}

/// Whether a run has written the text, or noted it where its status isn't 0, and nothing on the other stream.
fn tells(ran: &Ran, text: &[u8]) -> bool {
    if ran.status == 0 {
        return ran.out.as_slice() == text && ran.note.is_empty();
    }
    ran.note.as_slice() == text && ran.out.is_empty()
}

/// The number of the first row of inputs, statuses and texts that a command doesn't answer so.
///
/// # Errors
///
/// Want of memory.
pub fn wrong_answer<P: Program>(
    alloc: Global,
    words: &[&str],
    rows: &[(&str, u8, &str)],
) -> Result<Option<usize>, AllocError> {
    for (number, row) in rows.iter().enumerate() {
        if !answers::<P>(alloc, words, row.0, row.1, row.2)? {
            return Ok(Some(number));
        }
    }
    Ok(None)
}

/// Whether `check` refuses a document with this cause and line.
fn is_refused<P: Program>(alloc: Global, document: &str, cause: &str) -> Result<bool, AllocError> {
    let ran = run_on::<P>(alloc, &["check"], document)?;
    let is_cause = cause_of(ran.note.as_slice()) == Some(cause.as_bytes());
    Ok(ran.status == 6 && ran.out.is_empty() && is_cause)
}

/// The number of the first row of changes, what stands in a document and what is put in its place, with which `check` doesn't refuse it with
/// the row's cause and line.
///
/// # Errors
///
/// Want of memory.
pub fn wrong_refusal<P: Program>(
    alloc: Global,
    document: &str,
    rows: &[(&str, &str, &str)],
) -> Result<Option<usize>, AllocError> {
    for (number, row) in rows.iter().enumerate() {
        let text = changed(alloc, document, row.0, row.1)?;
        if !is_refused::<P>(alloc, text.as_str(), row.2)? {
            return Ok(Some(number));
        }
    }
    Ok(None)
}
