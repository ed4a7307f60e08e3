//! Sites in line form, read and written.
#![tactic(auto)]

mod add;
mod item;
mod keyword;
mod law;
mod read;
mod verdict;
mod words;
mod write;

pub use law::good_items_are_a_site;
pub use read::read_site;
pub use verdict::write_verdict;
pub use write::write_site;
