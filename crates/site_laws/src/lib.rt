//! The laws of sites as texts and as items: what determines them, and that a fault and a site exclude each other.
#![tactic(auto)]

pub mod items;
pub mod lines;
pub mod sites;
