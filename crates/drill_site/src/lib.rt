//! The sites that the command `drill` generates.
#![tactic(auto)]

mod draws;
mod drill;
mod steps;

pub use drill::drill_site;
