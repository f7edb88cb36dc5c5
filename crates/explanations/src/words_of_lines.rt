//! Words of faults of piece lines.

use crate::reasons::{Words, words};
use log_pieces::{EntryFault, LineFault};
use std::alloc::Global;
use wasm_types::NoMemory;

/// Why a line is no piece line.
pub fn line_words(alloc: Global, fault: LineFault) -> Result<String, NoMemory> {
    match fault {
        LineFault::TooLong => words(alloc, "it is longer than any piece line"),
        LineFault::NoEnd => words(alloc, "it lacks its line end"),
        LineFault::Empty => words(alloc, "it is empty"),
        LineFault::CarriageReturn => words(alloc, "it ends in a carriage return"),
        LineFault::UpperCase { column } => {
            Ok(format!(in alloc; "the digit at column {column} is in upper case")?)
        }
        LineFault::NotADigit { column, bytes } => byte_words(alloc, column, bytes),
        LineFault::OddDigits { digits } => {
            Ok(format!(in alloc; "it has {digits} digits, which is odd")?)
        }
        LineFault::Entry { entry, fault } => entry_words(alloc, entry, fault),
        _ => bytes_words(alloc, fault),
    }
}

/// The program that compressed a file whose first bytes are these; None where they do not begin as a compressed file
/// does: gzip's (RFC 1952), a frame of zstd (RFC 8878), xz's.
fn packing_of(bytes: [u8; 6]) -> Option<&'static str> {
    match bytes {
        [0x1F, 0x8B, ..] => Some("gzip"),
        [0x28, 0xB5, 0x2F, 0xFD, ..] => Some("zstd"),
        [0xFD, b'7', b'z', b'X', b'Z', 0x00] => Some("xz"),
        _ => None,
    }
}

/// What is wrong with a byte that is no digit. One that is no visible character of ASCII is told as its number.
fn byte_words(alloc: Global, column: u32, bytes: [u8; 6]) -> Words {
    if column == 1 {
        if let Some(packing) = packing_of(bytes) {
            return Ok(format!(in alloc; "it is compressed by {packing}; unpack it first")?);
        }
    }
    let [byte, ..] = bytes;
    if byte.is_ascii_graphic() {
        let shown = char::from(byte);
        Ok(format!(in alloc; "`{shown}` at column {column} is no digit 0 to 9 or a to f")?)
    } else {
        Ok(format!(in alloc; "the byte {byte} at column {column} is no digit 0 to 9 or a to f")?)
    }
}

/// What is wrong in the bytes that the digits spell.
fn bytes_words(alloc: Global, fault: LineFault) -> Words {
    match fault {
        LineFault::NoMark => words(alloc, "it does not begin with 495250"),
        LineFault::BadFormat { format } => {
            Ok(format!(in alloc; "its format is {format}, not 1 or 2")?)
        }
        LineFault::BadBlock { power } => {
            Ok(format!(in alloc; "its blocks have 2^{power} bytes, not 2^6 to 2^12")?)
        }
        LineFault::TooMany { entries } => {
            Ok(format!(in alloc; "it has {entries} entries, above 4096")?)
        }
        LineFault::BadFlag { flag } => {
            Ok(format!(in alloc; "its end has the flag {flag}, not 0 or 1")?)
        }
        LineFault::BadOutcome { outcome } => {
            Ok(format!(in alloc; "its outcome is {outcome}, above 5")?)
        }
        LineFault::BadTrap { trap } => Ok(format!(in alloc; "no trap has the number {trap}")?),
        LineFault::LeftOver { bytes } => {
            Ok(format!(in alloc; "{bytes} bytes stand behind the piece")?)
        }
        LineFault::Rule(rule) => Ok(format!(in alloc; "it breaks a rule: {rule}")?),
        _ => words(alloc, "it ends early"),
    }
}

/// What is wrong in an entry.
fn entry_words(alloc: Global, entry: u32, fault: EntryFault) -> Words {
    let head = format!(in alloc; "entry {entry} is bad: ")?;
    let rest = match fault {
        EntryFault::EndsEarly => words(alloc, "the line ends within it")?,
        EntryFault::BadKind { kind } => { format!(in alloc; "its kind is {kind}, not 0, 1 or 2")? }
        EntryFault::BadCount { touches } => {
            format!(in alloc; "it has {touches} touches, not one to three")?
        }
        EntryFault::BadMode { mode } => {
            format!(in alloc; "a touch has the mode {mode}, not 0 or 1")?
        }
        EntryFault::NotRising { object } => {
            format!(in alloc; "the object {object} is not above the one before it")?
        }
        EntryFault::BadObject { object, greatest } => {
            format!(in alloc; "the object {object} is above the greatest, {greatest}")?
        }
    };
    Ok(format!(in alloc; "{head}{rest}")?)
}
