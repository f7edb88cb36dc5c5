//! Words of faults of instructions that are none of the profile.

use crate::instruction_code::CodeText;
use crate::instruction_family::family_of;
use crate::reasons::{Words, words};
use binary_decoder::{CodeFault, OpCode};
use std::alloc::Global;

/// An instruction outside the profile, and what it belongs to.
fn outside_words(alloc: Global, code: OpCode) -> Words {
    let family = family_of(code);
    let code = CodeText(code);
    Ok(format!(in alloc; "{code}: {family}")?)
}

/// What is wrong with an instruction.
pub(crate) fn code_words(alloc: Global, fault: CodeFault) -> Words {
    match fault {
        CodeFault::Outside(code) => outside_words(alloc, code),
        CodeFault::NotConstant(code) => {
            let code = CodeText(code);
            Ok(format!(in alloc; "{code}: a value here is an i32.const or an i64.const")?)
        }
        CodeFault::NoConstantEnd(code) => {
            let code = CodeText(code);
            Ok(format!(in alloc;
                "{code}: a value here is one constant and end, with no extended constants"
            )?)
        }
        CodeFault::TableNumber(byte) => Ok(format!(in alloc;
            "0x{byte:02x} of call_indirect: its table is 0 in one byte; compile with -mno-reference-types (from clang 20 on with -mno-call-indirect-overlong too)"
        )?),
        CodeFault::MemoryNumber(byte) => {
            Ok(format!(in alloc; "0x{byte:02x}: the one memory is 0 in one byte")?)
        }
        CodeFault::FenceByte(byte) => {
            Ok(format!(in alloc; "0x{byte:02x} behind atomic.fence, where 0x00 stands")?)
        }
        CodeFault::Else => words(alloc, "0x05 else: it stands outside the first arm of an if"),
        CodeFault::NoEnd => words(
            alloc,
            "the body is at its end, and the end of a block is missing",
        ),
    }
}
