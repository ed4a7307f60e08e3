//! Makers of rows that shares violate: of few turbines or all points by their power, and of arcs that can't be together.
#![tactic(auto)]

mod capacity;
mod crossing;
mod larger;
mod sums;

pub use capacity::capacity_row;
pub use crossing::crossing_row;
