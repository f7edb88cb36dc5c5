//! How instructions nest.

ghost use Rattle.std.specs.Prelude.{◌≡◌};
ghost use Rattle.wasm_types.specs.Nesting.{nesting_of};

use crate::instruction::{BlockKind, Instr, Plain};

/// What an instruction does to the nesting of blocks (WebAssembly Core 1.0, structured control).
#[derive(Clone, Copy, Debug, PartialEq, Eq)]
pub enum Nesting {
    /// It opens a block or a loop.
    Opens,
    /// It opens an `if`.
    OpensIf,
    /// It is an `else`.
    Turns,
    /// It is an `end`.
    Closes,
    /// It does nothing to it.
    Stays,
}

/// What encloses a place: the first arm of an `if`, or all else, in which no `else` may stand.
#[derive(Clone, Copy, Debug, PartialEq, Eq)]
pub enum Enclosing {
    FirstArm,
    Whole,
}

impl Instr {
    /// What the instruction does to the nesting of blocks.
    pub fn nesting(&self) -> Nesting
        ensures { result ≡ nesting_of self.now }
    {
        match self {
            Instr::Block(BlockKind::Block, _) | Instr::Block(BlockKind::Loop, _) => Nesting::Opens,
            Instr::Block(BlockKind::If, _) => Nesting::OpensIf,
            Instr::Plain(Plain::Else) => Nesting::Turns,
            Instr::Plain(Plain::End) => Nesting::Closes,
            _ => Nesting::Stays,
        }
    }
}
