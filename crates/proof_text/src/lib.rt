//! The lines of a document that follow its site, read.
#![tactic(auto)]

mod cables;
mod fault;
mod items;
mod named;
mod reading;

pub use cables::read_layout;
pub use fault::ItemFault;
pub use items::{ItemReader, Next};
pub use reading::{read_claim, read_close, read_count, read_end};
