//! Tests of what `plan` searches with, a module a crate.
#![tactic(auto)]

#[cfg(test)]
mod cuts;
#[cfg(test)]
mod floors;
#[cfg(test)]
mod fractions;
#[cfg(test)]
mod lifts;
#[cfg(test)]
mod listed_floors;
#[cfg(test)]
mod plain_plans;
#[cfg(test)]
mod programs;
#[cfg(test)]
mod searches;
#[cfg(test)]
mod starts;
#[cfg(test)]
mod turbines;
#[cfg(test)]
mod weights;
