//! Tests of a shared memory, and of shared cells, by threads that really run at once.
//!
//! They stand here since a crate with tests is proved twice.
#![tactic(auto)]

#[cfg(test)]
mod calls;
#[cfg(test)]
mod cells;
#[cfg(test)]
mod checked;
#[cfg(test)]
mod growths;
#[cfg(test)]
mod histories;
#[cfg(test)]
mod meeting;
#[cfg(test)]
mod memory;
#[cfg(test)]
mod mixing;
#[cfg(test)]
mod operations;
#[cfg(test)]
mod plain;
#[cfg(test)]
mod readers;
#[cfg(test)]
mod resting;
#[cfg(test)]
mod splitting;
#[cfg(test)]
mod walk;
