//! Bytes to modules of the integer profile, the names of their functions, the offsets and the codes of instructions.
//!
//! `decode`: a module just where the bytes spell it within the limits (`found`, `refused`, `too_large`), and only that
//! one (`one_module`); `first`: whether a fault or a passed limit comes first. `Cursor` reads just what a production
//! spells (`value`, `refusal`, `fits`); `FunctionNames` are those of the name section, up to its first damage;
//! `InstructionOffsets` tell where in the bytes each instruction begins.
#![tactic(auto)]

mod cause;
mod code_parts;
mod codes;
mod cursor;
mod entries;
mod fault;
mod functions;
mod header;
mod instructions;
mod module;
mod name_parts;
mod names;
mod offset_example;
mod offsets;
mod opcodes;
mod order;
mod parts;
mod place;
mod printable;
mod sections;
mod texts;

pub use cause::{
    Cause, CodeFault, Expected, HeaderFault, Integer, ItemFault, Limit, OpCode, SectionFault,
    SpellingFault, TypeFault,
};
pub use codes::code_of;
pub use cursor::Cursor;
pub use fault::{DecodeFault, clamped};
pub use module::{decode, one_module};
pub use names::FunctionNames;
pub use offset_example::example_has_these_offsets;
pub use offsets::InstructionOffsets;
pub use place::ModulePart;
pub use printable::fits_line;
pub use texts::summary;
