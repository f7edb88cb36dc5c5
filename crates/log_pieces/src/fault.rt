//! Why there is no such piece.

ghost use Rattle.std.specs.Prelude.{◌≡◌};
ghost use Rattle.log_pieces.specs.declared.fault.DecodeFault.TheVariants.{NoMemory};

use std::alloc::{AllocError, AllocFailed};
use std::error::Error;
use std::fmt;

/// The first rule that the parts of a piece break, in the order of the variants.
#[derive(Clone, Copy, Debug, PartialEq, Eq)]
pub enum PieceFault {
    /// Refusal 31: there is no entry and no end.
    Empty,
    /// Refusal 32: there are more than 4,096 entries.
    TooMany,
    /// Refusal 33: the entries go past the end's places or past 1,000,000,000; or the end has more places than steps,
    /// or more than 1,000,000,000 steps.
    PastEnd,
    /// Refusal 36: the thread is above 15.
    BadThread,
    /// Refusal 39: an entry has not one to three touches, or their objects don't rise strictly, or one is above 32,768
    /// (in profile 2: above two to the power of 25 divided by the size of a block).
    BadEntry,
}

impl fmt::Display for PieceFault {
    fn fmt<W: fmt::Write>(&self, f: &mut fmt::Formatter<W>) -> fmt::Result {
        f.write_str(match self {
            PieceFault::Empty => "no entry and no end",
            PieceFault::TooMany => "more than 4096 entries",
            PieceFault::PastEnd => "entries, places or steps past their limit",
            PieceFault::BadThread => "a thread above 15",
            PieceFault::BadEntry =>
                "an entry whose touches are no rising list of one to three objects",
        })
    }
}

impl Error for PieceFault {}

/// What is wrong in a line that is no piece line. Columns, and the entries of a piece, are counted from 1; numbers
/// above those of 32 bits are told as the greatest of these.
#[derive(Clone, Copy, Debug, PartialEq, Eq)]
pub enum LineFault {
    /// It has more bytes than the longest piece line.
    TooLong,
    /// It lacks its `0A`.
    NoEnd,
    /// It has no digit.
    Empty,
    /// Its digits end in `0D`, behind which its `0A` stands.
    CarriageReturn,
    /// A digit `A` to `F` stands at that column.
    UpperCase { column: u32 },
    /// The first of these bytes, at that column, is no hexadecimal digit. Behind the line's last byte they are 0.
    NotADigit { column: u32, bytes: [u8; 6] },
    /// It has that odd number of digits.
    OddDigits { digits: u32 },
    /// The first bytes are not `IRP`.
    NoMark,
    /// The byte behind `IRP` is that one, neither 1 nor 2.
    BadFormat { format: u8 },
    /// The run's blocks have two to that power of bytes, which is not from 6 to 12.
    BadBlock { power: u8 },
    /// The bytes end before the entries, or within the end of the thread.
    TooShort,
    /// There are so many entries, above 4,096.
    TooMany { entries: u16 },
    /// That entry is none.
    Entry { entry: u32, fault: EntryFault },
    /// The byte that says whether the thread ended is that one, neither 0 nor 1.
    BadFlag { flag: u8 },
    /// The outcome of the thread is that one, above 5.
    BadOutcome { outcome: u8 },
    /// The trap of the thread has that number, which no trap has.
    BadTrap { trap: u8 },
    /// So many bytes stand behind the piece.
    LeftOver { bytes: u32 },
    /// The parts break that rule of pieces.
    Rule(PieceFault),
}

/// What is wrong in an entry of a piece that is none.
#[derive(Clone, Copy, Debug, PartialEq, Eq)]
pub enum EntryFault {
    /// The bytes end within it.
    EndsEarly,
    /// Its kind is that byte, above 2.
    BadKind { kind: u8 },
    /// It has so many touches, not one to three.
    BadCount { touches: u8 },
    /// A touch is neither a read, 0, nor a write, 1, but that byte.
    BadMode { mode: u8 },
    /// That object does not stand above the one before it.
    NotRising { object: u32 },
    /// That object is above the greatest of the run.
    BadObject { object: u32, greatest: u32 },
}

/// Why bytes were not read as a piece.
#[derive(Clone, Copy, Debug, PartialEq, Eq)]
pub enum DecodeFault {
    /// Refusal 34: no piece has these bytes, for that fault in them.
    NotAPiece(LineFault),
    /// Refusal 35: a growth was refused, which says nothing of the bytes.
    NoMemory,
}

impl fmt::Display for DecodeFault {
    fn fmt<W: fmt::Write>(&self, f: &mut fmt::Formatter<W>) -> fmt::Result {
        f.write_str(match self {
            DecodeFault::NotAPiece(_) => "not a piece",
            DecodeFault::NoMemory => "out of memory",
        })
    }
}

impl Error for DecodeFault {}

impl From<AllocError> for DecodeFault {
    ghost from_gives = { λ _ fault. fault ≡ NoMemory };

    fn from(_error: AllocError) -> DecodeFault {
        DecodeFault::NoMemory
    }
}

impl<T: Drop> From<AllocFailed<T>> for DecodeFault {
    ghost from_gives = { λ _ fault. fault ≡ NoMemory };

    fn from(_error: AllocFailed<T>) -> DecodeFault {
        DecodeFault::NoMemory
    }
}
