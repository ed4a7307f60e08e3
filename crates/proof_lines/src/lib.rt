//! The lines of a document that follow its site, written.
#![tactic(auto)]

mod write;

pub use write::{write_budget, write_claim, write_layout, write_row, write_work};
