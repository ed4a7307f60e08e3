//! The search for the cheapest legal layout as a state machine: lanes take nodes of one tree and work them, and a cheaper layout may be
//! found at any time. Rounds over its lanes, from a layout to begin with, lead to a plan, and are written item by item as they are made.
//! The search is branch and bound (Land and Doig, 1960), and the known layout is its incumbent.
#![tactic(auto)]

mod choice;
mod concluding;
mod events;
mod machine;
mod rounds;
mod searching;
mod sharpening;
mod working;
mod worth;

pub use machine::{Event, Search, Step};
pub use search_parts::Plan;
pub use search_progress::Ended;
pub use searching::{SearchFault, search};
