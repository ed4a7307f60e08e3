//! Tests of whole plans: `plan` over memory.
#![tactic(auto)]

#[cfg(test)]
mod cables;
#[cfg(test)]
mod compared;
#[cfg(test)]
mod drills;
#[cfg(test)]
mod plans;
