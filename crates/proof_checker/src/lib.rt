//! A document's items checked one by one, and its claim at the end. A document is a certificate: it is checked without trust in who
//! made it, as in VIPR (Cheung, Gleixner and Steffy, 2017).
#![tactic(auto)]

mod acts;
mod checker;
mod claims;
mod rows;
mod works;

pub use cable_definitions::claim::{Cause, Claim, Refusal};
pub use checker::Checker;
pub use claims::Bound;
