//! Tests of whole checks: `check` and `report` over memory.
#![tactic(auto)]

#[cfg(test)]
mod cables;
#[cfg(test)]
mod checks;
#[cfg(test)]
mod cuts;
#[cfg(test)]
mod reports;
#[cfg(test)]
mod sets;
#[cfg(test)]
mod weights;
