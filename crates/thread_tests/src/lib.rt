//! Tests of recordings and replays of modules by threads that really run at once.
//!
//! They stand here since a crate with tests is proved twice.
#![tactic(auto)]

#[cfg(test)]
mod channels;
#[cfg(test)]
mod counter;
#[cfg(test)]
mod counting;
#[cfg(test)]
mod ending;
#[cfg(test)]
mod meeting;
#[cfg(test)]
mod noting;
#[cfg(test)]
mod order;
#[cfg(test)]
mod programs;
#[cfg(test)]
mod readers;
#[cfg(test)]
mod runs;
#[cfg(test)]
mod timing;
#[cfg(test)]
mod waiting;
