//! The laws of walks, loads and layouts.
#![tactic(auto)]

pub mod costs;
pub mod loads;
pub mod order;
pub mod straight;
pub mod types;
pub mod uses;
pub mod walks;
