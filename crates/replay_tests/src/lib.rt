//! Tests of recordings and replays of scripts.
//!
//! They stand here since a crate with tests is proved twice.
#![tactic(auto)]

#[cfg(test)]
mod breaks;
#[cfg(test)]
mod logs;
#[cfg(test)]
mod random;
#[cfg(test)]
mod recordings;
#[cfg(test)]
mod refused;
#[cfg(test)]
mod refused_moves;
#[cfg(test)]
mod replays;
#[cfg(test)]
mod resting;
#[cfg(test)]
mod sessions;
#[cfg(test)]
mod turns;
