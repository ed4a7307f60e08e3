//! The report of a plan: its cables, what each type and each substation bears, and its verdict.
#![tactic(auto)]

mod sums;
mod write;

pub use write::report;
