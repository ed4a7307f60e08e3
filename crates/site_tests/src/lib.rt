//! Tests of places, sites and layouts, a module a crate.
#![tactic(auto)]

#[cfg(test)]
mod arcs;
#[cfg(test)]
mod crossings;
#[cfg(test)]
mod drills;
#[cfg(test)]
mod layouts;
#[cfg(test)]
mod lines;
#[cfg(test)]
mod places;
#[cfg(test)]
mod reports;
#[cfg(test)]
mod sites_in_json;
#[cfg(test)]
mod sites_in_lines;
