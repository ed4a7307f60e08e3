//! Weights that bound a node by the nearest arcs of its turbines.
#![tactic(auto)]

mod laws;
mod least;
mod turbines;

pub use laws::all_free_weights_reach_the_nearest;
pub use turbines::weigh_turbines;
