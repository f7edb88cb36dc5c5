//! Instructions.

ghost use Rattle.std.specs.Prelude.{◌≡◌, ◌+◌, ◌<◌, ◌≤◌, ◌^◌, length, reverse, IfOk, Some, None, if◌then◌else◌};
ghost use Rattle.binary_decoder.specs.Moves.{Moves, MovesBy, IsRefusedAt};
ghost use Rattle.wasm_types.specs.Nesting.{nesting_of, opened};
ghost use Rattle.binary_decoder.specs.Reader.{atomic_operands_at, prefixed_at, simple_at, branch_table_at, operands_at, instr_at, expr_at};

use crate::cause::{Cause, CodeFault, Expected, OpCode};
use crate::cursor::Cursor;
use crate::fault::DecodeFault;
use crate::opcodes::{AtomicCode, Opcode, atomic_code, opcode_of_byte};
use crate::parts::{block_type, constant, mem_arg, push_items};
use std::alloc::{AllocError, Global};
use wasm_types::{Enclosing, Instr, LabelRange, Nesting};

/// The refusal at an offset, where an instruction outside the profile begins.
#[cold]
fn outside(offset: usize, code: OpCode) -> DecodeFault
    ensures { IsRefusedAt offset result }
{
    DecodeFault::refused(offset, Cause::Code(CodeFault::Outside(code)))
}

/// What stands behind the prefix: a number, and its operands. The prefix has the offset `start`.
#[tactic(auto, unfolding(crate::specs::Reader::atomic_operands_at, crate::specs::Reader::prefixed_at))]
fn prefixed(start: usize, cursor: &mut Cursor) -> Result<Instr, DecodeFault>
    ensures { Moves result cursor.new.rest.now (prefixed_at cursor.old.rest.now) }
{
    let Ok(code) = cursor.unsigned_32() else {
        return Err(outside(start, OpCode::Byte(0xFE)));
    };
    match atomic_code(code) {
        None => Err(outside(start, OpCode::Atomic(code))),
        Some(AtomicCode::Op(op)) => {
            let arg = mem_arg(cursor)?;
            Ok(Instr::Atomic(op, arg))
        }
        Some(AtomicCode::Fence) => {
            cursor.expect(0x00, Expected::FenceByte)?;
            Ok(Instr::Fence)
        }
    }
}

/// The operands of an instruction that has no labels of its own. The instruction has the offset `start`.
#[tactic(auto, unfolding(crate::specs::Reader::simple_at))]
fn simple(start: usize, opcode: Opcode, cursor: &mut Cursor) -> Result<Instr, DecodeFault>
    ensures { Moves result cursor.new.rest.now (simple_at opcode cursor.old.rest.now) }
{
    match opcode {
        Opcode::Plain(op) => Ok(Instr::Plain(op)),
        Opcode::Numeric(op) => Ok(Instr::Numeric(op)),
        Opcode::Block(kind) => {
            let result = block_type(cursor)?;
            Ok(Instr::Block(kind, result))
        }
        Opcode::Index(op) => {
            let index = cursor.unsigned_32()?;
            Ok(Instr::Index(op, index))
        }
        Opcode::BranchTable => Err(outside(start, OpCode::Byte(0x0E))),
        Opcode::CallIndirect => {
            let index = cursor.unsigned_32()?;
            cursor.expect(0x00, Expected::TableNumber)?;
            Ok(Instr::CallIndirect(index))
        }
        Opcode::Memory(op) => {
            let arg = mem_arg(cursor)?;
            Ok(Instr::Memory(op, arg))
        }
        Opcode::Pages(op) => {
            cursor.expect(0x00, Expected::MemoryNumber)?;
            Ok(Instr::Pages(op))
        }
        Opcode::Const(val_type) => {
            let value = constant(val_type, cursor)?;
            Ok(Instr::Const(value))
        }
        Opcode::Prefix => prefixed(start, cursor),
    }
}

/// The labels of a branch table, which go behind those of the tables before it, and the default.
#[tactic(auto, unfolding(crate::specs::Reader::branch_table_at))]
fn branch_table(
    alloc: Global,
    cursor: &mut Cursor,
    labels: &mut Vec<u32>,
) -> Result<Instr, DecodeFault>
    requires { length labels.now.items < 2 ^ 32 }
    ensures { MovesBy (λ i. (i, labels.new.items)) result cursor.new.rest.now (branch_table_at labels.old.items cursor.old.rest.now) }
{
    let first = labels.len() as u32;
    let count = cursor.unsigned_32()?;
    push_items::<u32>(alloc, count, cursor, labels)?;
    let default = cursor.unsigned_32()?;
    Ok(Instr::BranchTable(LabelRange { first, count }, default))
}

/// The instruction at the cursor. Its labels, if it has any, go behind those of the instructions before it.
#[tactic(auto, unfolding(crate::specs::Reader::instr_at, crate::specs::Reader::operands_at))]
pub(crate) fn instruction(
    alloc: Global,
    cursor: &mut Cursor,
    labels: &mut Vec<u32>,
) -> Result<Instr, DecodeFault>
    requires { length labels.now.items < 2 ^ 32 }
    ensures { MovesBy (λ i. (i, labels.new.items)) result cursor.new.rest.now (instr_at labels.old.items cursor.old.rest.now) }
{
    let start = cursor.offset();
    let Ok(code) = cursor.byte() else {
        return Err(DecodeFault::refused(start, Cause::Code(CodeFault::NoEnd)));
    };
    match opcode_of_byte(code) {
        None => Err(outside(start, cursor.op_code(code))),
        Some(Opcode::BranchTable) => branch_table(alloc, cursor, labels),
        Some(opcode) => simple(start, opcode, cursor),
    }
}

/// Follows an instruction; false where it does not nest.
fn follow(blocks: &mut Vec<Enclosing>, instr: &Instr) -> Result<bool, AllocError>
    ensures { IfOk result (λ nests. opened (nesting_of instr.now) (reverse blocks.old.items) ≡ (if nests then Some (reverse blocks.new.items) else None)) }
{
    let Some(enclosing) = blocks.pop() else {
        return Ok(false);
    };
    match instr.nesting() {
        Nesting::Opens => {
            blocks.push(enclosing)?;
            blocks.push(Enclosing::Whole)?;
        }
        Nesting::OpensIf => {
            blocks.push(enclosing)?;
            blocks.push(Enclosing::FirstArm)?;
        }
        Nesting::Turns => {
            if enclosing == Enclosing::Whole {
                return Ok(false);
            }
            blocks.push(Enclosing::Whole)?;
        }
        Nesting::Closes => {}
        Nesting::Stays => blocks.push(enclosing)?,
    }
    Ok(true)
}

/// Instructions up to the end that closes the body, and the labels of their branch tables. What stood in the blocks is
/// given up: their memory alone is used again.
pub fn expr(
    alloc: Global,
    blocks: &mut Vec<Enclosing>,
    cursor: &mut Cursor,
) -> Result<(Vec<Instr>, Vec<u32>), DecodeFault>
    requires { length cursor.now.rest.now < 2 ^ 32 }
    ensures { MovesBy (λ x. (x.0.items, x.1.items)) result cursor.new.rest.now (expr_at cursor.old.rest.now) }
{
    // Each instruction has a byte at least. Most bodies are short.
    let mut instrs = Vec::with_capacity(alloc, cursor.rest().len().min(16))?;
    let mut labels = Vec::new(alloc);
    blocks.clear();
    blocks.push(Enclosing::Whole)?;
    for _ in 0..cursor.rest().len() {
        if blocks.is_empty() {
            return Ok((instrs, labels));
        }
        let start = cursor.offset();
        let instr = match instruction(alloc, cursor, &mut labels) {
            Ok(instr) => instr,
            Err(fault) => return Err(fault.in_instruction(instrs.len())),
        };
        if !follow(blocks, &instr)? {
            let fault = DecodeFault::refused(start, Cause::Code(CodeFault::Else));
            return Err(fault.in_instruction(instrs.len()));
        }
        instrs.push(instr)?;
    }
    if blocks.is_empty() {
        return Ok((instrs, labels));
    }
    let fault = cursor.refusal(Cause::Code(CodeFault::NoEnd));
    Err(fault.in_instruction(instrs.len()))
}
