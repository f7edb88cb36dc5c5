//! What is spelled by itself: types, constants, and vectors of such parts.

ghost use Rattle.std.specs.Prelude.{◌≡◌, List, ℕ, true};
ghost use Rattle.binary_decoder.specs.Fault.{Reading};
ghost use Rattle.binary_decoder.specs.Reading.{u32_at, items_at, vector_at, byte_vector_at, name_at};
ghost use Rattle.binary_decoder.specs.Moves.{Moves, MovesBy, kind_of};
ghost use Rattle.binary_decoder.specs.Reader.{with_front, val_type_at, func_type_at, block_type_at, flag_of, choice_at, sizes_at, table_type_at, memory_type_at, constant_at, const_expr_at, mem_arg_at, import_at, global_at, export_kind_of, export_at, element_at, data_at};

use crate::cause::{Cause, CodeFault, Expected, ItemFault, Limit, TypeFault};
use crate::cursor::Cursor;
use crate::fault::DecodeFault;
use std::alloc::Global as Alloc;
use wasm_types::{
    Data, Element, Export, ExportKind, FuncType, Global, Import, Items, Limits, MemArg, MemoryType,
    ValType, Value,
};

/// The most pages that a memory's least size may be.
pub const MOST_INITIAL_PAGES: u32 = 256;

/// The most elements that a table's least size may be.
pub const MOST_ELEMENTS: u32 = 4096;

/// What stands in vectors.
pub trait Spelled: Sized + Drop {
    ghost reading: { List ℕ → Reading Self };

    /// Reads one at the cursor.
    fn read(alloc: Alloc, cursor: &mut Cursor) -> Result<Self, DecodeFault>
        ensures { Moves result cursor.new.rest.now (reading cursor.old.rest.now) };
}

/// Reads so many items, behind those that were read before.
#[inline(always)]
pub fn push_items<T: Spelled>(
    alloc: Alloc,
    count: u32,
    cursor: &mut Cursor,
    items: &mut Vec<T>,
) -> Result<(), DecodeFault>
    ensures { MovesBy (λ _. items.new.items) result cursor.new.rest.now (with_front items.old.items (items_at T.reading count cursor.old.rest.now)) }
{
    for _ in 0..count {
        let item = match T::read(alloc, cursor) {
            Ok(item) => item,
            Err(fault) => return Err(fault.in_item(items.len())),
        };
        items.push(item)?;
    }
    Ok(())
}

/// A count, and that many items.
pub fn vector<T: Spelled>(alloc: Alloc, cursor: &mut Cursor) -> Result<Items<T>, DecodeFault>
    ensures { Moves result cursor.new.rest.now (vector_at T.reading cursor.old.rest.now) }
{
    let count = cursor.unsigned_32()?;
    let mut items = Vec::new(alloc);
    push_items::<T>(alloc, count, cursor, &mut items)?;
    Ok(Items::from_vec(items))
}

/// A count, and that many bytes.
fn byte_vector(alloc: Alloc, cursor: &mut Cursor) -> Result<Items<u8>, DecodeFault>
    ensures { Moves result cursor.new.rest.now (byte_vector_at cursor.old.rest.now) }
{
    let content = cursor.sized()?;
    Ok(Items::from_vec(Vec::from_slice(alloc, content.rest())?))
}

/// A name.
fn name(alloc: Alloc, cursor: &mut Cursor) -> Result<Items<u8>, DecodeFault>
    ensures { Moves result cursor.new.rest.now (name_at cursor.old.rest.now) }
{
    let bytes = cursor.name()?;
    Ok(Items::from_vec(Vec::from_slice(alloc, bytes)?))
}

impl Spelled for u32 {
    ghost reading = { u32_at };

    #[inline(always)]
    fn read(_alloc: Alloc, cursor: &mut Cursor) -> Result<u32, DecodeFault> {
        cursor.unsigned_32()
    }
}

impl Spelled for ValType {
    ghost reading = { val_type_at };

    #[inline(always)]
    #[tactic(auto, unfolding(crate::specs::Reader::val_type_at))]
    fn read(_alloc: Alloc, cursor: &mut Cursor) -> Result<ValType, DecodeFault> {
        let start = cursor.offset();
        match cursor.byte()? {
            0x7F => Ok(ValType::I32),
            0x7E => Ok(ValType::I64),
            code => Err(DecodeFault::refused(start, Cause::Type(TypeFault::Value(code)))),
        }
    }
}

impl Spelled for FuncType {
    ghost reading = { func_type_at };

    #[tactic(auto, unfolding(crate::specs::Reader::func_type_at))]
    fn read(alloc: Alloc, cursor: &mut Cursor) -> Result<FuncType, DecodeFault> {
        cursor.expect(0x60, Expected::Form)?;
        let params = vector::<ValType>(alloc, cursor)?;
        let results = vector::<ValType>(alloc, cursor)?;
        Ok(FuncType { params, results })
    }
}

/// The type of a block: no result, or one.
#[tactic(auto, unfolding(crate::specs::Reader::block_type_at))]
pub fn block_type(cursor: &mut Cursor) -> Result<Option<ValType>, DecodeFault>
    ensures { Moves result cursor.new.rest.now (block_type_at cursor.old.rest.now) }
{
    let start = cursor.offset();
    match cursor.byte()? {
        0x40 => Ok(None),
        0x7F => Ok(Some(ValType::I32)),
        0x7E => Ok(Some(ValType::I64)),
        code => Err(DecodeFault::refused(start, Cause::Type(TypeFault::Block(code)))),
    }
}

/// A least size that keeps the limit, and perhaps a greatest one.
#[tactic(auto, unfolding(crate::specs::Reader::sizes_at))]
fn sizes(
    most: u32,
    limit: Limit,
    has_maximum: bool,
    cursor: &mut Cursor,
) -> Result<Limits, DecodeFault>
    ensures { Moves result cursor.new.rest.now (sizes_at true most has_maximum cursor.old.rest.now) }
{
    let minimum = cursor.limited(most, 0, limit)?;
    let maximum = if has_maximum {
        Some(cursor.unsigned_32()?)
    } else {
        None
    };
    Ok(Limits { minimum, maximum })
}

/// What the byte `00` or `01` is of.
#[derive(Clone, Copy)]
enum Flag {
    /// Whether a table has a greatest size.
    TableLimits,
    /// Whether a global is mutable.
    Mutability,
}

impl Flag {
    /// What is wrong with another byte.
    fn cause(self, byte: u8) -> Cause {
        match self {
            Flag::TableLimits => Cause::Type(TypeFault::TableLimits(byte)),
            Flag::Mutability => Cause::Type(TypeFault::Mutability(byte)),
        }
    }
}

/// The byte `00` or `01`.
fn read_flag(flag: Flag, cursor: &mut Cursor) -> Result<bool, DecodeFault>
    ensures { Moves result cursor.new.rest.now (choice_at flag_of cursor.old.rest.now) }
{
    let start = cursor.offset();
    match cursor.byte()? {
        0x00 => Ok(false),
        0x01 => Ok(true),
        byte => Err(DecodeFault::refused(start, flag.cause(byte))),
    }
}

/// The type of a table, whose least size keeps the limit.
impl Spelled for Limits {
    ghost reading = { table_type_at true };

    #[tactic(auto, unfolding(crate::specs::Reader::table_type_at))]
    fn read(_alloc: Alloc, cursor: &mut Cursor) -> Result<Limits, DecodeFault> {
        cursor.expect(0x70, Expected::Table)?;
        let has_maximum = read_flag(Flag::TableLimits, cursor)?;
        sizes(MOST_ELEMENTS, Limit::Elements, has_maximum, cursor)
    }
}

/// The type of a memory, whose least size keeps the limit.
impl Spelled for MemoryType {
    ghost reading = { memory_type_at true };

    #[tactic(auto, unfolding(crate::specs::Reader::memory_type_at, crate::specs::Reader::memory_sizes_at))]
    fn read(_alloc: Alloc, cursor: &mut Cursor) -> Result<MemoryType, DecodeFault> {
        let start = cursor.offset();
        let (has_maximum, shared) = match cursor.byte()? {
            0x00 => (false, false),
            0x01 => (true, false),
            0x03 => (true, true),
            flag => {
                let cause = Cause::Type(TypeFault::MemoryLimits(flag));
                return Err(DecodeFault::refused(start, cause));
            }
        };
        let limits = sizes(MOST_INITIAL_PAGES, Limit::Pages, has_maximum, cursor)?;
        Ok(MemoryType { limits, shared })
    }
}

/// A constant of this type, which is spelled as a signed number.
#[tactic(auto, unfolding(crate::specs::Reader::constant_at))]
pub fn constant(val_type: ValType, cursor: &mut Cursor) -> Result<Value, DecodeFault>
    ensures { Moves result cursor.new.rest.now (constant_at val_type cursor.old.rest.now) }
{
    match val_type {
        ValType::I32 => {
            let number = cursor.signed_32()?;
            Ok(Value::I32(number.cast_unsigned()))
        }
        ValType::I64 => {
            let number = cursor.signed_64()?;
            Ok(Value::I64(number.cast_unsigned()))
        }
    }
}

/// A constant expression: a constant and the end.
#[tactic(auto, unfolding(crate::specs::Reader::const_expr_at))]
fn const_expr(cursor: &mut Cursor) -> Result<Value, DecodeFault>
    ensures { Moves result cursor.new.rest.now (const_expr_at cursor.old.rest.now) }
{
    let start = cursor.offset();
    let val_type = match cursor.byte()? {
        0x41 => ValType::I32,
        0x42 => ValType::I64,
        byte => {
            let code = cursor.op_code(byte);
            let cause = Cause::Code(CodeFault::NotConstant(code));
            return Err(DecodeFault::refused(start, cause));
        }
    };
    let value = constant(val_type, cursor)?;
    cursor.expect(0x0B, Expected::ConstantEnd)?;
    Ok(value)
}

/// An alignment exponent and an offset.
#[inline(always)]
#[tactic(auto, unfolding(crate::specs::Reader::mem_arg_at))]
pub fn mem_arg(cursor: &mut Cursor) -> Result<MemArg, DecodeFault>
    ensures { Moves result cursor.new.rest.now (mem_arg_at cursor.old.rest.now) }
{
    let align = cursor.unsigned_32()?;
    let offset = cursor.unsigned_32()?;
    Ok(MemArg { align, offset })
}

impl Spelled for Import {
    ghost reading = { import_at true };

    #[tactic(auto, unfolding(crate::specs::Reader::import_at))]
    fn read(alloc: Alloc, cursor: &mut Cursor) -> Result<Import, DecodeFault> {
        let names = cursor.offset();
        let module = name(alloc, cursor)?;
        let name = name(alloc, cursor)?;
        if let Err(fault) = cursor.expect(0x02, Expected::Memory) {
            return Err(fault.of_names(names));
        }
        let memory = MemoryType::read(alloc, cursor)?;
        Ok(Import {
            module,
            name,
            memory,
        })
    }
}

impl Spelled for Global {
    ghost reading = { global_at };

    #[tactic(auto, unfolding(crate::specs::Reader::global_at))]
    fn read(alloc: Alloc, cursor: &mut Cursor) -> Result<Global, DecodeFault> {
        let val_type = ValType::read(alloc, cursor)?;
        let mutable = read_flag(Flag::Mutability, cursor)?;
        let value = const_expr(cursor)?;
        Ok(Global {
            val_type,
            mutable,
            value,
        })
    }
}

/// What an export names.
fn export_kind(cursor: &mut Cursor) -> Result<ExportKind, DecodeFault>
    ensures { Moves result cursor.new.rest.now (choice_at export_kind_of cursor.old.rest.now) }
{
    let start = cursor.offset();
    match cursor.byte()? {
        0x00 => Ok(ExportKind::Function),
        0x01 => Ok(ExportKind::Table),
        0x02 => Ok(ExportKind::Memory),
        0x03 => Ok(ExportKind::Global),
        kind => Err(DecodeFault::refused(start, Cause::Item(ItemFault::Export(kind)))),
    }
}

impl Spelled for Export {
    ghost reading = { export_at };

    #[tactic(auto, unfolding(crate::specs::Reader::export_at))]
    fn read(alloc: Alloc, cursor: &mut Cursor) -> Result<Export, DecodeFault> {
        let name = name(alloc, cursor)?;
        let kind = export_kind(cursor)?;
        let index = cursor.unsigned_32()?;
        Ok(Export { name, kind, index })
    }
}

/// The same fault, which says that a segment of this kind is not active, if it is of the offset's first byte, at
/// `start`, and there is such a kind.
#[cold]
fn not_active(fault: DecodeFault, start: usize, kind: u32, cause: ItemFault) -> DecodeFault
    ensures { kind_of result ≡ kind_of fault }
{
    match fault {
        DecodeFault::Refused { offset, .. }
            if offset as usize == start && (1..=7).contains(&kind) => {
            fault.because(Cause::Item(cause))
        }
        _ => fault,
    }
}

/// The offset of a segment, before which a number stands. Where no offset begins, that number is the segment's kind if
/// it is from 1 to 7, and the fault is then this one.
fn segment_offset(kind: u32, fault: ItemFault, cursor: &mut Cursor) -> Result<Value, DecodeFault>
    ensures { Moves result cursor.new.rest.now (const_expr_at cursor.old.rest.now) }
{
    let start = cursor.offset();
    match const_expr(cursor) {
        Ok(value) => Ok(value),
        Err(found) => Err(not_active(found, start, kind, fault)),
    }
}

impl Spelled for Element {
    ghost reading = { element_at };

    #[tactic(auto, unfolding(crate::specs::Reader::element_at))]
    fn read(alloc: Alloc, cursor: &mut Cursor) -> Result<Element, DecodeFault> {
        let table = cursor.unsigned_32()?;
        let offset = segment_offset(table, ItemFault::Element(table), cursor)?;
        let functions = vector::<u32>(alloc, cursor)?;
        Ok(Element {
            table,
            offset,
            functions,
        })
    }
}

impl Spelled for Data {
    ghost reading = { data_at };

    #[tactic(auto, unfolding(crate::specs::Reader::data_at))]
    fn read(alloc: Alloc, cursor: &mut Cursor) -> Result<Data, DecodeFault> {
        let memory = cursor.unsigned_32()?;
        let offset = segment_offset(memory, ItemFault::Data(memory), cursor)?;
        let bytes = byte_vector(alloc, cursor)?;
        Ok(Data {
            memory,
            offset,
            bytes,
        })
    }
}
