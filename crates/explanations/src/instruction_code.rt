//! The text of an instruction's code.

use crate::instruction_names::name_of;
use binary_decoder::OpCode;
use std::fmt;

/// The text of a code: its byte and the number behind it in hexadecimal, and the name, if there is one.
#[derive(Clone, Copy)]
pub(crate) struct CodeText(pub(crate) OpCode);

impl fmt::Display for CodeText {
    fn fmt<W: fmt::Write>(&self, f: &mut fmt::Formatter<W>) -> fmt::Result {
        match self.0 {
            OpCode::Byte(code) => write!(f, "0x{code:02x}")?,
            OpCode::Collected(number) => write!(f, "0xfb 0x{number:02x}")?,
            OpCode::Bulk(number) => write!(f, "0xfc 0x{number:02x}")?,
            OpCode::Vector(number) => write!(f, "0xfd 0x{number:02x}")?,
            OpCode::Atomic(number) => write!(f, "0xfe 0x{number:02x}")?,
        }
        match name_of(self.0) {
            None => Ok(()),
            Some(name) => write!(f, " {name}"),
        }
    }
}
