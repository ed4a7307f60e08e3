//! Documents read and checked, item by item, as certificates: whoever made one need not be trusted.
#![tactic(auto)]

mod document;

pub use document::{Accepted, DocumentFault, read_document};
