//! The choices of one arc: the least that one of them leaves of its cost, and what no legal layout costs more than.
#![tactic(auto)]

mod choices;
mod greatest;

pub use choices::least_choice;
pub use greatest::ceiling;
