//! What a run of the program promises: how it may end, and the definitions that its contract cites
//! beside those of the subject.
#![tactic(auto)]

pub mod ending;
