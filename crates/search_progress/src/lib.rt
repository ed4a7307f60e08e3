//! How far a search is: the tree with its open nodes and lanes, the rows that are listed, the known layout, and what is done to a node.
#![tactic(auto)]

mod open;
mod progress;
mod rows;
mod settling;

pub use progress::{Ended, Progress};
pub use rows::list_load_rows;
pub use settling::{Choice, closing};
