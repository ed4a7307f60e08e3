//! Legal layouts that a search starts from.
#![tactic(auto)]

mod circles;
mod floors;
mod growing;
mod settling;
mod starting;
mod straight;
mod types;

pub use settling::improve_layout;
pub use starting::{Start, greedy};
