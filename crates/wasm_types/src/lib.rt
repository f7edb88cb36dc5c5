//! Values, instructions, modules, operations on memory, traps, keys of runs, sizes, LEB128 numbers.
//!
//! `leb_unsigned` and `leb_signed` read just the numbers that there are (`found`, `none`). `RunKey::of` has the SHA-256
//! of the module's bytes, then the plan's (`digest`). `first_memory`, `initial_pages`, `capacity`, `is_shared`,
//! `first_table` and `fit_segments` say what a module opens with, each by its definition.
#![tactic(auto)]

mod block;
mod instruction;
mod items;
mod key;
mod leb128;
mod memory;
mod modules;
mod nesting;
mod no_memory;
mod operation;
mod outcome;
mod range;
mod same;
mod segments;
mod sizes;
mod table;
mod trap;
mod value;
mod width;

pub use block::{Block, BlockFault};
pub use instruction::{
    Access, AtomicOp, BinaryOp, BlockKind, Comparison, Extension, IndexOp, Instr, LabelRange, Load,
    MemArg, MemoryOp, Narrow, Numeric, PagesOp, Plain, RmwOp, UnaryOp,
};
pub use items::Items;
pub use key::{Profile, RunKey};
pub use leb128::{leb_signed, leb_unsigned};
pub use memory::{block_of, capacity, first_memory, initial_pages, is_shared, may_share};
pub use modules::{
    Body, Data, Element, Export, ExportKind, FuncType, Global, Import, Limits, LocalGroup,
    MemoryType, Module,
};
pub use nesting::{Enclosing, Nesting};
pub use no_memory::NoMemory;
pub use operation::{Action, Extent, Op, Reply};
pub use outcome::Outcome;
pub use range::ByteRange;
pub use same::Same;
pub use segments::fit_segments;
pub use sizes::{LAST_THREAD, MOST_PAGES, MOST_STEPS, MOST_THREADS, PAGE_SIZE, sizes_are_so};
pub use table::first_table;
pub use trap::Trap;
pub use value::{ValType, Value};
pub use width::Width;
