//! A site from an input: in lines where the first byte is `s`, and else in JSON.
#![tactic(auto)]

mod form;
mod front;
mod json;
mod whole;

pub use front::read_front;
pub use whole::read_whole;
