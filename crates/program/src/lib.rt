//! The whole program, but for the streams and files of the process.
//!
//! `run`, `answered`: status 0, the output took the very text that the words ask for (of help, some text); 1, the line
//! of a fault that is so was told, and nothing was written but by an output that failed, or of a dialogue whose source
//! failed; 2, the words ask for nothing, and nothing was read or written. Standard error took what it was told, or it
//! failed.
#![tactic(auto)]

mod answering;
mod gathering;
mod log_texts;
mod refusing;
mod showing;

pub use answering::{OddWord, refuse_words, run};

#[cfg(test)]
mod tests;
