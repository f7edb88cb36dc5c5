//! Tests of the thread machine, of worlds of threads and of their views.
//!
//! They stand here since a crate with tests is proved twice.
#![tactic(auto)]

#[cfg(test)]
mod accesses;
#[cfg(test)]
mod arithmetic;
#[cfg(test)]
mod calls;
#[cfg(test)]
mod checks;
#[cfg(test)]
mod growths;
#[cfg(test)]
mod modules;
#[cfg(test)]
mod passing;
#[cfg(test)]
mod replays;
#[cfg(test)]
mod standings;
#[cfg(test)]
mod threads;
#[cfg(test)]
mod trials;
#[cfg(test)]
mod views;
#[cfg(test)]
mod waits;
