//! Dual weights of a node: the Lagrangian bound of its rows, raised by the volume method.
#![tactic(auto)]

mod gaps;
mod improvement;
mod listing;
mod local;
mod node;
mod rows;
mod steps;
mod value;

pub use bound_shares::Shares;
pub use improvement::{Improved, better_of, improve};
