//! The words of a line of a document, and what they say. No stream and no site stands here.
#![tactic(auto)]

mod judging;
mod members;
mod number;
mod row;
mod said;
mod words;

pub use judging::{
    ItemLine, NamedClaim, act_in, budget_in, claim_in, end_in, item_in, layout_in, weight_in,
};
pub use members::MemberList;
pub use number::Number;
pub use said::cable_said;
pub use words::{Words, words_of};
