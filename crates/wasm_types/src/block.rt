//! The size of a block of memory.

ghost use Rattle.std.specs.Prelude.{◌≡◌, ◌≢◌, ◌^◌, ℕ, ◌≤◌, IfOk, IfSome, IfNone, Err};

use std::error::Error;
use std::fmt;
use std::marker::Model;

/// The size of a block, in bytes: a power of two from 64 to 4,096. Contracts see the power, from 6 to 12.
#[derive(Clone, Copy, Debug, PartialEq, Eq)]
pub struct Block {
    power: u8,
}

impl Model for Block {
    ghost use Rattle.std.specs.Prelude.{ℕ, ◌≤◌};

    ghost Value = { ℕ };

    ghost view = { λ b. b.power };

    ghost invariant = { λ b. (6 ≤ b.power) × (b.power ≤ 12) };

    ghost inverse = { λ n. record { power = n } };
}

/// Why a number is no block's size.
#[derive(Clone, Copy, Debug, PartialEq, Eq)]
pub enum BlockFault {
    /// Refusal 38: it is no power of two from 64 to 4,096.
    BadBlock,
}

impl fmt::Display for BlockFault {
    fn fmt<W: fmt::Write>(&self, f: &mut fmt::Formatter<W>) -> fmt::Result {
        write!(f, "no power of two from 64 to 4096")
    }
}

impl Error for BlockFault {}

impl Block {
    /// The block of so many bytes.
    pub fn new(size: u32) -> Result<Block, BlockFault>
        ensures size { IfOk result (λ power. 2 ^ power ≡ size) }
        ensures bad { result ≡ Err BlockFault.BadBlock → (power : ℕ) → 6 ≤ power → power ≤ 12 → 2 ^ power ≢ size }
    {
        match size {
            64 => Ok(Block { power: 6 }),
            128 => Ok(Block { power: 7 }),
            256 => Ok(Block { power: 8 }),
            512 => Ok(Block { power: 9 }),
            1024 => Ok(Block { power: 10 }),
            2048 => Ok(Block { power: 11 }),
            4096 => Ok(Block { power: 12 }),
            _ => Err(BlockFault::BadBlock),
        }
    }

    /// The least block, of 64 bytes.
    pub fn least() -> Block
        ensures { result ≡ 6 }
    {
        Block { power: 6 }
    }

    /// The block of two to that power, of which there is one from 6 to 12.
    pub fn of_power(power: u8) -> Option<Block>
        ensures power { IfSome result (λ block. (block ≡ power) × (6 ≤ power) × (power ≤ 12)) }
        ensures none { IfNone result (6 ≤ power → power ≤ 12 → ⊥) }
    {
        if power < 6 || power > 12 {
            return None;
        }
        Some(Block { power })
    }

    /// The power of two that the size is.
    pub fn power(&self) -> u8
        ensures power { result ≡ self.now }
        ensures least { 6 ≤ self.now }
        ensures greatest { self.now ≤ 12 }
    {
        self.power
    }

    /// The size in bytes.
    pub fn size(&self) -> u32
        ensures size { result ≡ 2 ^ self.now }
        ensures least { 6 ≤ self.now }
        ensures greatest { self.now ≤ 12 }
    {
        match self.power {
            6 => 64,
            7 => 128,
            8 => 256,
            9 => 512,
            10 => 1024,
            11 => 2048,
            _ => 4096,
        }
    }
}
