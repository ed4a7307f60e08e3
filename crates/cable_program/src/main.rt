//! The array cable optimiser: the words that the program is called with, and the standard streams, go
//! to `run`, whose contract is the promise of the whole program.
#![tactic(auto)]

use cable_run::run;
use cable_text::{StdSink, StdSource};
use std::process::ExitCode;
use std::{env, io};

fn main(rt: HostRuntime) -> ExitCode {
    let alloc = rt.alloc();
    let mut input = StdSource::new(rt.reader());
    let mut out = StdSink::new(io::writer(&rt));
    let mut note = StdSink::new(rt.stderr());
    let ending = match words_given(&rt) {
        Ok(words) => run(alloc, words.as_slice(), &mut input, &mut out, &mut note),
        Err(_) => run(alloc, &[], &mut input, &mut out, &mut note),
    };
    ExitCode::from(ending.status())
}

/// The words after the program's name; an error where they can't be read or aren't text.
fn words_given(rt: &HostRuntime) -> io::Result<Vec<String>> {
    let mut words = Vec::new(rt.alloc());
    for word in env::args(rt)?.skip(1) {
        words.push(word)?;
    }
    Ok(words)
}
