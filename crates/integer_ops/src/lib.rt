//! Integer arithmetic: what the numeric instructions give.
//!
//! `compute`: what the standard says, traps included. `word32` and `word64` have the operations one by one.
#![tactic(auto)]

mod computing;
pub mod word32;
pub mod word64;

pub use computing::compute;
