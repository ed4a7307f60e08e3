//! The program whose runs are tested.

use cable_run::run;
use run_support::{Program, Streams};
use std::alloc::Global;

/// The program whose runs are tested.
pub(crate) struct Cables;

impl Program for Cables {
    fn run(alloc: Global, words: &[String], streams: &mut Streams) -> u8 {
        let Streams { input, out, note } = streams;
        run(alloc, words, input, out, note).status()
    }
}
