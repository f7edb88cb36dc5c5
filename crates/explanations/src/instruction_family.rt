//! What instructions outside the profile belong to.

use binary_decoder::OpCode;
use std::fmt;

/// What an instruction outside the integer profile belongs to.
#[derive(Clone, Copy)]
pub(crate) enum Family {
    /// Floating point.
    Floating,
    /// Truncation of floating point that saturates.
    Saturating,
    /// Vectors.
    Vectors,
    /// Bulk memory and table instructions.
    Bulk,
    /// Reference types.
    References,
    /// Tail calls.
    TailCalls,
    /// Exceptions.
    Exceptions,
    /// Garbage collection, and references to functions of a type.
    Collected,
    /// Stack switching.
    StackSwitching,
    /// Wide arithmetic.
    WideArithmetic,
    /// Atomic instructions of no standard.
    NoAtomic,
    /// No instruction of any standard.
    Unknown,
}

/// What the instruction of a code belongs to, of one that is outside the profile.
pub(crate) fn family_of(code: OpCode) -> Family {
    match code {
        OpCode::Byte(code) => byte_family(code),
        OpCode::Collected(_) => Family::Collected,
        OpCode::Bulk(number) => bulk_family(number),
        OpCode::Vector(_) => Family::Vectors,
        OpCode::Atomic(_) => Family::NoAtomic,
    }
}

fn byte_family(code: u8) -> Family {
    match code {
        0x06..=0x0A | 0x18 | 0x19 | 0x1F => Family::Exceptions,
        0x12 | 0x13 | 0x15 => Family::TailCalls,
        0x14 | 0xD3..=0xD6 => Family::Collected,
        0x1C | 0x25 | 0x26 | 0xD0..=0xD2 => Family::References,
        0x2A | 0x2B | 0x38 | 0x39 | 0x43 | 0x44 => Family::Floating,
        0x5B..=0x66 | 0x8B..=0xA6 | 0xA8..=0xAB | 0xAE..=0xBF => Family::Floating,
        0xE0..=0xE6 => Family::StackSwitching,
        _ => Family::Unknown,
    }
}

fn bulk_family(number: u32) -> Family {
    match number {
        0..=7 => Family::Saturating,
        8..=14 => Family::Bulk,
        15..=17 => Family::References,
        18 => Family::Bulk,
        19..=22 => Family::WideArithmetic,
        _ => Family::Unknown,
    }
}

impl fmt::Display for Family {
    /// What is outside the profile, and the option of clang that does without it, where there is one.
    fn fmt<W: fmt::Write>(&self, f: &mut fmt::Formatter<W>) -> fmt::Result {
        f.write_str(match self {
            Family::Floating => "floating point is outside the integer profile",
            Family::Saturating => {
                "floating point is outside the integer profile, and so is its saturating truncation"
            }
            Family::Vectors => "vectors are outside the profile: compile with -mno-simd128",
            Family::Bulk => {
                "bulk memory is outside the profile: compile with -mno-bulk-memory (from clang 20 on with -mno-bulk-memory-opt too)"
            }
            Family::References => {
                "reference types are outside the profile: compile with -mno-reference-types"
            }
            Family::TailCalls => "tail calls are outside the profile: compile with -mno-tail-call",
            Family::Exceptions =>
                "exceptions are outside the profile: compile with -fno-exceptions",
            Family::Collected => {
                "garbage collection and typed references are outside the profile"
            }
            Family::StackSwitching => "stack switching is outside the profile",
            Family::WideArithmetic => {
                "wide arithmetic is outside the profile: compile with -mno-wide-arithmetic"
            }
            Family::NoAtomic => "no atomic instruction has this number",
            Family::Unknown => "no instruction of the profile",
        })
    }
}
