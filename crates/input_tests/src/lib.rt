//! Tests of inputs: words, sites in both forms, layouts to be judged, and streams that fail.
#![tactic(auto)]

#[cfg(test)]
mod cables;
#[cfg(test)]
mod judgements;
#[cfg(test)]
mod limits;
#[cfg(test)]
mod sites;
#[cfg(test)]
mod streams;
