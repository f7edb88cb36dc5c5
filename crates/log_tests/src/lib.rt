//! Tests of pieces, joins, streams and logs that are gathered.
//!
//! They stand here since a crate with tests is proved twice.
#![tactic(auto)]

#[cfg(test)]
mod bad_lines;
#[cfg(test)]
mod checks;
#[cfg(test)]
mod contradictions;
#[cfg(test)]
mod fitful;
#[cfg(test)]
mod joins;
#[cfg(test)]
mod objects;
#[cfg(test)]
mod pieces;
#[cfg(test)]
mod refused;
#[cfg(test)]
mod replicas;
#[cfg(test)]
mod skipping;
#[cfg(test)]
mod streams;
