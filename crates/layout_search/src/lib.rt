//! A search for cheap layouts that crosses illegal ones. Nothing that it answers is to be believed before it is judged: what is promised is that
//! it names points and types of the site alone, that it ends, and that it fails for want of memory only.
//!
//! Threshold accepting (Dueck and Scheuer 1990) over states in which cables may clash, bear too much, or be too many in a substation, a turbine
//! or a bend; each such fault has a penalty that rises while there are faults and falls while there are none (strategic oscillation, Glover). All
//! numbers are whole, and what is drawn depends on the site alone, so that runs repeat.
#![tactic(auto)]

mod beginning;
mod farm;
mod generator;
mod moves;
mod near;
mod network;
mod penalties;
mod points;
mod runs;
mod segments;
mod state;

pub use runs::search_layout;
