//! Tests of events that are no rounds, with a maker of rows and a chooser of arcs of their own.
#![tactic(auto)]

#[cfg(test)]
mod events;
