//! Words of faults in the numbers, names and types of a module.

use crate::reasons::{Words, words};
use binary_decoder::{Integer, SpellingFault, TypeFault};
use std::alloc::Global;

/// The numbers of a format, in words.
fn integer_words(integer: Integer) -> &'static str {
    match integer {
        Integer::Unsigned32 => "unsigned number of 32 bits",
        Integer::Signed32 => "signed number of 32 bits",
        Integer::Signed64 => "signed number of 64 bits",
    }
}

/// What is not spelled.
pub(crate) fn spelling_words(alloc: Global, fault: SpellingFault) -> Words {
    match fault {
        SpellingFault::NumberPastEnd(integer) => {
            let integer = integer_words(integer);
            Ok(format!(in alloc; "the {integer} goes past the last byte here")?)
        }
        SpellingFault::Number(integer) => {
            let integer = integer_words(integer);
            Ok(format!(in alloc; "no {integer} stands there in LEB128")?)
        }
        SpellingFault::ByteMissing => words(alloc, "a byte is missing"),
        SpellingFault::TooLong { length, left } => {
            Ok(format!(in alloc; "a length of {length} bytes, and {left} are left")?)
        }
        SpellingFault::NotText => words(alloc, "a name that is not UTF-8"),
        SpellingFault::LeftOver(left) => Ok(format!(in alloc; "{left} bytes are left over")?),
    }
}

/// What a byte is among value types, of all of WebAssembly.
fn value_type_name(code: u8) -> &'static str {
    match code {
        0x7F => "i32",
        0x7E => "i64",
        0x7D => "f32",
        0x7C => "f64",
        0x7B => "v128",
        0x70 => "funcref",
        0x6F => "externref",
        0x63 | 0x64 | 0x69..=0x6E | 0x71..=0x74 => "reference type",
        0x77 | 0x78 => "packed type",
        _ => "no type",
    }
}

/// What a byte is among the forms of types.
fn form_name(code: u8) -> &'static str {
    match code {
        0x4E => "recursive group",
        0x4F | 0x50 => "subtype",
        0x5D => "continuation type",
        0x5E => "array type",
        0x5F => "struct type",
        _ => "no type",
    }
}

/// What the limits of a memory say.
fn limits_words(flag: u8) -> &'static str {
    match flag {
        0x02 => "a shared memory needs a maximum: link with --max-memory",
        0x04..=0x07 => "memories of 64 bits are outside the profile: compile for wasm32",
        0x08..=0x0F => "pages of another size are outside the profile",
        _ => "no limits of a memory",
    }
}

/// The byte that spells no type.
fn code_of_type(fault: TypeFault) -> u8 {
    match fault {
        TypeFault::Form(code)
        | TypeFault::Value(code)
        | TypeFault::Block(code)
        | TypeFault::Table(code)
        | TypeFault::TableLimits(code)
        | TypeFault::MemoryLimits(code)
        | TypeFault::Mutability(code) => code,
    }
}

/// What the byte is in all of WebAssembly, of a type.
fn type_name(fault: TypeFault) -> Option<&'static str> {
    match fault {
        TypeFault::Form(code) => Some(form_name(code)),
        TypeFault::Block(code) if code < 0x40 => Some("as the number of a type"),
        TypeFault::Value(code) | TypeFault::Block(code) | TypeFault::Table(code) => {
            Some(value_type_name(code))
        }
        _ => None,
    }
}

/// What the profile has in place of the byte.
fn type_rule(fault: TypeFault) -> &'static str {
    match fault {
        TypeFault::Form(_) => "the profile has function types alone (0x60)",
        TypeFault::Value(_) => "the profile has the value types i32 and i64 alone",
        TypeFault::Block(code) if code < 0x40 => {
            "the profile has blocks of no result, i32 or i64; compile with -mno-multivalue"
        }
        TypeFault::Block(_) => "the profile has blocks of no result, i32 or i64",
        TypeFault::Table(_) => "the profile has tables of funcref alone",
        TypeFault::TableLimits(_) => {
            "the limits of a table begin with 0x00 or 0x01 in the profile"
        }
        TypeFault::MemoryLimits(flag) => limits_words(flag),
        TypeFault::Mutability(_) => "a global is marked by 0x00 or 0x01 for mutable",
    }
}

/// Which byte spells no type of the profile, and why.
pub(crate) fn type_words(alloc: Global, fault: TypeFault) -> Words {
    let code = code_of_type(fault);
    let rule = type_rule(fault);
    match type_name(fault) {
        None => Ok(format!(in alloc; "0x{code:02x}: {rule}")?),
        Some(name) => Ok(format!(in alloc; "0x{code:02x} {name}: {rule}")?),
    }
}
