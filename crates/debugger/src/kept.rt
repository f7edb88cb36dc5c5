//! A line as it comes, byte by byte.

ghost use Rattle.std.specs.Prelude.{◌≡◌, ℕ, List, [], ◌∷◌, ◌++◌};
ghost use Rattle.debugger.specs.Lines.{line_of};
ghost use Rattle.debugger.specs.Kept.{IsKept};

use crate::command::Line;
use crate::reading::{LONGEST, line_of};
use arrayvec::ArrayVec;

/// The bytes of a line that came so far, where they are no more than the longest command has.
#[derive(Drop)]
pub(crate) struct Kept {
    bytes: ArrayVec<u8, 1024>,
    is_long: bool,
}

impl Kept {
    /// No bytes.
    pub(crate) fn new() -> Kept
        ensures { IsKept [] result }
    {
        Kept {
            bytes: ArrayVec::new(),
            is_long: false,
        }
    }

    /// One more byte.
    pub(crate) fn put(&mut self, byte: u8)
        ensures { (text : List ℕ) → IsKept text self.old → IsKept (text ++ byte ∷ []) self.new }
    {
        if self.bytes.len() < LONGEST {
            self.bytes.push(byte);
        } else {
            self.is_long = true;
        }
    }

    /// What the line is.
    pub(crate) fn line(&self) -> Line
        ensures { (text : List ℕ) → IsKept text self.now → result ≡ line_of text }
    {
        if self.is_long {
            Line::Unknown
        } else {
            line_of(&self.bytes)
        }
    }
}
