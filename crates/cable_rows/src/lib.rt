//! Rows: what must hold of every legal layout, as relations on the use and the load of each candidate arc; and what rows with weights count an arc as.
#![tactic(auto)]

mod coefficients;
mod counts;
mod form;
mod pool;
mod row;
mod sets;
mod sides;
mod sums;

pub use cable_definitions::row::{RowFault, RowKind};
pub use counts::{Counts, weighted, weighted_counts};
pub use form::{row_form, speaks_of};
pub use pool::{Full, RowPool};
pub use row::{Members, Row};
pub use sets::{WeightList, find_near, find_sets, turn_to};
pub use sums::PointSums;
