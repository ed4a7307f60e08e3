//! Tests of rows, bounds, reasons and documents, a module a crate.
#![tactic(auto)]

#[cfg(test)]
mod bounds;
#[cfg(test)]
mod checkers;
#[cfg(test)]
mod documents;
#[cfg(test)]
mod read_items;
#[cfg(test)]
mod reasons;
#[cfg(test)]
mod rows;
#[cfg(test)]
mod tables;
#[cfg(test)]
mod trees;
#[cfg(test)]
mod written_items;
