//! The laws of the search: what holds of every state that it reaches, and what it ends with.
#![tactic(auto)]

pub mod ends;
pub mod start;
pub mod steps;
