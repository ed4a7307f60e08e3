//! What the optimiser does with the words that it is called with, over any source and sinks: `run`,
//! whose contract is the promise of the whole program.
#![tactic(auto)]

mod check;
mod document;
mod drill;
mod fault;
mod judge;
mod layout;
mod notes;
mod plan;
mod report;
mod site;
mod top;
mod whole;
mod words;

pub use crate::top::run;
pub use crate::words::words_of;
pub use run_definitions::ending::Ending;
