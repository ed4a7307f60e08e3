//! The tree of nodes, and the works that are done on them.
#![tactic(auto)]

mod node;
mod tree;

pub use cable_definitions::claim::{Cause, Claim, Refusal};
pub use cable_definitions::row::{Act, Why};
pub use node_works::Work;
pub use tree::{Tree, TreeFault};
