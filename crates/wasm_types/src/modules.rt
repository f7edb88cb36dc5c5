//! Modules (WebAssembly Core 1.0, structure), with what the integer profile has of them.

use crate::instruction::Instr;
use crate::items::Items;
use crate::value::{ValType, Value};

/// The type of a function.
#[derive(Debug, Drop)]
pub struct FuncType {
    pub params: Items<ValType>,
    pub results: Items<ValType>,
}

/// A least size and perhaps a greatest one: pages of a memory, elements of a table.
#[derive(Clone, Copy, Debug, PartialEq, Eq)]
pub struct Limits {
    pub minimum: u32,
    pub maximum: Option<u32>,
}

/// The type of a memory. A shared one has a maximum.
#[derive(Clone, Copy, Debug, PartialEq, Eq)]
pub struct MemoryType {
    pub limits: Limits,
    pub shared: bool,
}

/// An import, which is of a memory. The two names are bytes in UTF-8.
#[derive(Debug, Drop)]
pub struct Import {
    pub module: Items<u8>,
    pub name: Items<u8>,
    pub memory: MemoryType,
}

/// A global, with the value that it begins with.
#[derive(Clone, Copy, Debug, PartialEq, Eq)]
pub struct Global {
    pub val_type: ValType,
    pub mutable: bool,
    pub value: Value,
}

/// What an export names.
#[derive(Clone, Copy, Debug, PartialEq, Eq)]
pub enum ExportKind {
    Function,
    Table,
    Memory,
    Global,
}

/// An export. The name is bytes in UTF-8.
#[derive(Debug, Drop)]
pub struct Export {
    pub name: Items<u8>,
    pub kind: ExportKind,
    pub index: u32,
}

/// An active segment of functions for a table.
#[derive(Debug, Drop)]
pub struct Element {
    pub table: u32,
    pub offset: Value,
    pub functions: Items<u32>,
}

/// So many locals of one type, which stand one behind the other (WebAssembly Core 1.0, binary format, code section).
/// The count may be 0.
#[derive(Clone, Copy, Debug, PartialEq, Eq)]
pub struct LocalGroup {
    pub count: u32,
    pub val_type: ValType,
}

/// The body of a function: its locals behind the parameters, in groups, its instructions with the last `end`, and the
/// labels of its branch tables, one table behind the other.
#[derive(Debug, Drop)]
pub struct Body {
    pub locals: Items<LocalGroup>,
    pub code: Items<Instr>,
    pub labels: Items<u32>,
}

/// An active segment of bytes for a memory.
#[derive(Debug, Drop)]
pub struct Data {
    pub memory: u32,
    pub offset: Value,
    pub bytes: Items<u8>,
}

/// A module.
#[derive(Debug, Drop)]
pub struct Module {
    /// The bytes that it was decoded from.
    pub source: Items<u8>,
    pub types: Items<FuncType>,
    pub imports: Items<Import>,
    /// The type's index for each function.
    pub functions: Items<u32>,
    pub tables: Items<Limits>,
    /// The module's own memories.
    pub memories: Items<MemoryType>,
    pub globals: Items<Global>,
    pub exports: Items<Export>,
    pub start: Option<u32>,
    pub elements: Items<Element>,
    /// The body of each function.
    pub bodies: Items<Body>,
    pub data: Items<Data>,
}
