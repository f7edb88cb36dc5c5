//! The rules and the limits of a module as a whole.

use wasm_types::ExportKind;

/// The rule or the limit that a module does not keep, outside the typing of its function bodies. Items are numbered
/// from 0.
#[derive(Clone, Copy, Debug, PartialEq, Eq)]
pub enum ModuleCause {
    /// A type has more than one result.
    Results {
        number: u32,
        results: usize,
    },
    /// A function's type is not there: there are so many types.
    FunctionType {
        function: u32,
        number: u32,
        count: usize,
    },
    /// There are not as many bodies as functions.
    Bodies {
        functions: usize,
        bodies: usize,
    },
    /// There are more functions than a `u32` numbers.
    Functions(usize),
    /// A function has more instructions than a `u32` numbers.
    Instructions {
        function: u32,
        count: usize,
    },
    /// There are more tables than one.
    Tables(usize),
    /// A least size is above the greatest.
    Limits {
        minimum: u32,
        maximum: u32,
    },
    /// There are more memories than one, imported and own.
    Memories(usize),
    /// A memory has more than 65,536 pages.
    Pages(u32),
    /// A shared memory has no greatest size.
    Unbounded,
    /// A global begins with a value of another type.
    GlobalValue(u32),
    /// An export names something that is not there.
    Export {
        export: u32,
        kind: ExportKind,
        index: u32,
    },
    /// The start function is not there.
    StartMissing(u32),
    /// The start function takes or leaves something.
    StartType(u32),
    /// An element segment is for a table that is not there.
    ElementTable {
        segment: u32,
        table: u32,
    },
    /// The offset of an element segment is no i32.
    ElementOffset(u32),
    /// An element segment names a function that is not there: there are so many.
    ElementFunction {
        segment: u32,
        function: u32,
        count: usize,
    },
    /// A data segment is for a memory that is not there.
    DataMemory {
        segment: u32,
        memory: u32,
    },
    /// The offset of a data segment is no i32.
    DataOffset(u32),
    /// Two exports have one name.
    SameName {
        first: u32,
        second: u32,
    },
    /// The module has more bytes than 1,048,576.
    Bytes(usize),
    /// A memory has more than 256 pages at first.
    FirstPages(u32),
    /// A table has more than 4,096 elements at first.
    FirstElements(u32),
    /// A function has more than 1,024 parameters and locals.
    Locals {
        function: u32,
        count: u64,
    },
}

/// Numbers the items of a list.
pub(crate) fn numbered(number: usize) -> u32 {
    u32::try_from(number).unwrap_or(u32::MAX)
}
