//! Lines and words of a text, integers in decimal, and how bytes are quoted that may be no text.
//!
//! `Parts` cuts a text into just its parts; `is_integer`, `bits_32` and `bits_64` read the integers of a range (laws
//! `lines_are_of_their_text`, `integers_are_decimal`). `Quoted::text` is the first 40 bytes, with `?` for what is
//! neither visible ASCII nor a space, and `..` for more.
#![tactic(auto)]

mod integers;
mod laws;
mod parts;
mod quoted;
mod spacing;

pub use integers::{bits_32, bits_64, is_integer};
pub use laws::{integers_are_decimal, lines_are_of_their_text};
pub use parts::{Parts, without_end};
pub use quoted::Quoted;
pub use spacing::{SpacingFault, spacing_fault};
