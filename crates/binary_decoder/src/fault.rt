//! Why bytes were not read.

ghost use Rattle.std.specs.Prelude.{◌≡◌};
ghost use Rattle.binary_decoder.specs.declared.fault.DecodeFault.TheVariants.{NoMemory};
ghost use Rattle.binary_decoder.specs.Moves.{kind_of, clamped, IsRefusedAt};

use crate::cause::{Cause, ItemFault, Limit, SectionFault, SpellingFault};
use crate::place::ModulePart;
use std::alloc::{AllocError, AllocFailed};
use std::error::Error;
use std::fmt;

/// Why bytes were not decoded. The place is filled in on the way out, by those who know it.
#[derive(Clone, Copy, Debug, PartialEq, Eq)]
pub enum DecodeFault {
    /// Refusal 1: the bytes spell nothing of the format. The offset is where they stop to.
    Refused {
        offset: u32,
        place: ModulePart,
        cause: Cause,
    },
    /// Refusal 2: the bytes spell nothing within the limits. The count is what passes the limit.
    TooLarge {
        limit: Limit,
        count: u64,
        place: ModulePart,
    },
    /// Refusal 3: a growth was refused, which says nothing of the bytes.
    NoMemory,
}

/// A number in 32 bits, or the greatest of these if it is greater.
pub fn clamped(number: usize) -> u32
    ensures { result ≡ clamped number }
{
    if number < 0xFFFF_FFFF {
        number as u32
    } else {
        0xFFFF_FFFF
    }
}

impl DecodeFault {
    /// The refusal at an offset, for a cause; its place is not known.
    #[cold]
    pub fn refused(offset: usize, cause: Cause) -> DecodeFault
        ensures { IsRefusedAt offset result }
    {
        DecodeFault::Refused {
            offset: clamped(offset),
            place: ModulePart::Unknown,
            cause,
        }
    }

    /// The place that was filled in.
    fn place(&self) -> ModulePart {
        match *self {
            DecodeFault::Refused { place, .. } | DecodeFault::TooLarge { place, .. } => place,
            DecodeFault::NoMemory => ModulePart::Unknown,
        }
    }

    /// The same fault at this place.
    #[cold]
    pub fn at(self, place: ModulePart) -> DecodeFault
        ensures { kind_of result ≡ kind_of self }
    {
        match self {
            DecodeFault::Refused { offset, cause, .. } => DecodeFault::Refused {
                offset,
                place,
                cause,
            },
            DecodeFault::TooLarge { limit, count, .. } => DecodeFault::TooLarge {
                limit,
                count,
                place,
            },
            DecodeFault::NoMemory => DecodeFault::NoMemory,
        }
    }

    /// The same fault for this cause, if it is a refusal.
    #[cold]
    pub fn because(self, cause: Cause) -> DecodeFault
        ensures { kind_of result ≡ kind_of self }
    {
        match self {
            DecodeFault::Refused { offset, place, .. } => DecodeFault::Refused {
                offset,
                place,
                cause,
            },
            other => other,
        }
    }

    /// The same fault, of an import whose names begin at this offset if it is no memory.
    #[cold]
    pub fn of_names(self, names: usize) -> DecodeFault
        ensures { kind_of result ≡ kind_of self }
    {
        match self {
            DecodeFault::Refused {
                cause: Cause::Item(ItemFault::Import { kind, .. }),
                ..
            } => self.because(Cause::Item(ItemFault::Import {
                kind,
                names: clamped(names),
            })),
            other => other,
        }
    }

    /// The same fault in an item of this number, of a section that is not known.
    #[cold]
    pub fn in_item(self, number: usize) -> DecodeFault
        ensures { kind_of result ≡ kind_of self }
    {
        self.at(ModulePart::Item {
            section: 0,
            number: clamped(number),
        })
    }

    /// The same fault in this section, in the item that was filled in, if one was.
    #[cold]
    pub fn in_section(self, section: u8) -> DecodeFault
        ensures { kind_of result ≡ kind_of self }
    {
        let place = self.place().in_section(section);
        self.at(place)
    }

    /// The same fault in the length of this section, which goes past the end of the file if it is too long.
    #[cold]
    pub fn in_length_of(self, section: u8) -> DecodeFault
        ensures { kind_of result ≡ kind_of self }
    {
        let fault = self.at(ModulePart::Section(section));
        match fault {
            DecodeFault::Refused {
                cause: Cause::Spelling(SpellingFault::TooLong { length, left }),
                ..
            } => fault.because(Cause::Section(SectionFault::PastEnd { length, left })),
            _ => fault,
        }
    }

    /// The same fault in an instruction of this number, of a function that is not known.
    #[cold]
    pub fn in_instruction(self, number: usize) -> DecodeFault
        ensures { kind_of result ≡ kind_of self }
    {
        self.at(ModulePart::Instruction {
            function: 0,
            instruction: clamped(number),
        })
    }

    /// The same fault in the body of this function, in the instruction that was filled in, if one was.
    #[cold]
    pub fn in_function(self, function: usize) -> DecodeFault
        ensures { kind_of result ≡ kind_of self }
    {
        let place = self.place().in_function(clamped(function));
        self.at(place)
    }
}

impl fmt::Display for DecodeFault {
    fn fmt<W: fmt::Write>(&self, f: &mut fmt::Formatter<W>) -> fmt::Result {
        match self {
            DecodeFault::Refused { offset, .. } => write!(
                f,
                "not in the format from byte {offset}"
            ),
            DecodeFault::TooLarge { .. } => write!(f, "past a limit"),
            DecodeFault::NoMemory => write!(f, "out of memory"),
        }
    }
}

impl Error for DecodeFault {}

impl From<AllocError> for DecodeFault {
    ghost from_gives = { λ _ fault. fault ≡ NoMemory };

    fn from(_error: AllocError) -> DecodeFault {
        DecodeFault::NoMemory
    }
}

impl<T: Drop> From<AllocFailed<T>> for DecodeFault {
    ghost from_gives = { λ _ fault. fault ≡ NoMemory };

    fn from(_error: AllocFailed<T>) -> DecodeFault {
        DecodeFault::NoMemory
    }
}
