//! Rows of sets of turbines, with weights that reach the cost of the cheapest in-tree.
#![tactic(auto)]

mod listing;

pub use listing::list_floor_rows;
