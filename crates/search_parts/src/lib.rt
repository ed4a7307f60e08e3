//! What `plan` hands to the search, and what is claimed of its end: a layout to begin with, the makers of rows in turn, the chooser of arcs, and claims.
#![tactic(auto)]

mod branching;
mod making;
mod outcome;
mod start;

pub use branching::most_open;
pub use making::first_row;
pub use outcome::{Plan, claim_of, part_plan};
pub use start::{Incumbent, Settled, first_incumbent, settle_layout};
