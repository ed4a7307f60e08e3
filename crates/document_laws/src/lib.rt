//! Documents: accepted and refused exclude each other, and the bytes determine what is accepted.
#![tactic(auto)]

pub mod accepting;
pub mod documents;
pub mod judging;
pub mod lines;
pub mod reading;
