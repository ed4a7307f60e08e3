//! The laws of rows, weights and proof trees.
#![tactic(auto)]

pub mod budgets;
pub mod cover;
pub mod full;
pub mod reasons;
pub mod rows;
pub mod values;
