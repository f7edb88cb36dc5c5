//! The check of one instruction.

ghost use Rattle.std.specs.Prelude.{◌≡◌, ◌++◌, [], ◌∷◌, OnOk, slice_get};
ghost use Rattle.wasm_types.specs.declared.value.ValType.TheVariants.{I32};
ghost use Rattle.validator.specs.Context.{context_of, has_memory, has_table, labels_in, function_type};
ghost use Rattle.validator.specs.Table.{Fixed, Leaves, if_some, if_true, numeric_class, plain_class, block_class, index_class, table_class, memory_class, pages_class, atomic_class, atomic_operands, class_of, seq};
ghost use Rattle.validator.specs.Ends.{ends_from};
ghost use Rattle.validator.specs.Walk.{at_frames, labels_of};
ghost use Rattle.validator.specs.Standing.{Goes, Stops};
ghost use Rattle.validator.specs.Faults.{IsIllTyped};

use crate::fault::InstructionFault;
use crate::labels::{labels_of_range, other_label};
use crate::locals::{local_type, no_local};
use crate::stacks::TypeStacks;
use crate::step_cause::{Named, StepCause};
use crate::table::{is_memory_there, no_function, type_of_function};
use wasm_types::{
    AtomicOp, BlockKind, Body, Enclosing, FuncType, IndexOp, Instr, LabelRange, MemArg, MemoryOp,
    Module, Numeric, PagesOp, Plain, ValType,
};

/// Types the next instruction of a function, whose groups of locals have these ends.
pub(crate) fn step(
    stacks: &mut TypeStacks,
    module: &Module,
    kind: &FuncType,
    body: &Body,
    ends: &[u64],
    instr: Instr,
) -> Result<(), InstructionFault>
    requires { ends.now ≡ ends_from 0 body.now.locals }
    ensures goes { OnOk result (Goes (λ fs. class_of (at_frames (context_of module.now kind.now body.now) fs) instr) stacks.old stacks.new) }
    ensures stops { IsIllTyped result → Stops (λ fs. class_of (at_frames (context_of module.now kind.now body.now) fs) instr) stacks.old }
{
    match instr {
        Instr::Plain(plain) => step_plain(stacks, module, kind, body, plain),
        Instr::Numeric(numeric) => step_numeric(stacks, numeric),
        Instr::Block(block, result) => step_block(stacks, block, result),
        Instr::Index(op, index) => step_index(stacks, module, kind, body, ends, op, index),
        Instr::BranchTable(range, default) => step_table(
            stacks, module, kind, body, range, default,
        ),
        Instr::CallIndirect(index) => step_call_indirect(stacks, module, index),
        Instr::Memory(op, argument) => step_memory(stacks, module, op, argument),
        Instr::Pages(op) => step_pages(stacks, module, op),
        Instr::Const(value) => stacks.fixed(&[], &[value.val_type()]),
        Instr::Atomic(op, argument) => step_atomic(stacks, module, op, argument),
        Instr::Fence => stacks.fixed(&[], &[]),
    }
}

fn step_plain(
    stacks: &mut TypeStacks,
    module: &Module,
    kind: &FuncType,
    body: &Body,
    plain: Plain,
) -> Result<(), InstructionFault>
    ensures goes { OnOk result (Goes (λ fs. plain_class (at_frames (context_of module.now kind.now body.now) fs) plain) stacks.old stacks.new) }
    ensures stops { IsIllTyped result → Stops (λ fs. plain_class (at_frames (context_of module.now kind.now body.now) fs) plain) stacks.old }
{
    match plain {
        Plain::Unreachable => stacks.leave(&[]),
        Plain::Nop => stacks.fixed(&[], &[]),
        Plain::Else => stacks.turn(),
        Plain::End => stacks.end(),
        Plain::Return => stacks.leave(kind.results.as_slice()),
        Plain::Discard => stacks.discard(),
        Plain::Select => stacks.select(),
    }
}

fn step_numeric(stacks: &mut TypeStacks, numeric: Numeric) -> Result<(), InstructionFault>
    ensures goes { OnOk result (Goes (λ _. numeric_class numeric) stacks.old stacks.new) }
    ensures stops { IsIllTyped result → Stops (λ _. numeric_class numeric) stacks.old }
{
    match numeric {
        Numeric::IsZero(of) => stacks.fixed(&[of], &[ValType::I32]),
        Numeric::Compare(of, _) => stacks.fixed(&[of, of], &[ValType::I32]),
        Numeric::Unary(of, _) => stacks.fixed(&[of], &[of]),
        Numeric::Binary(of, _) => stacks.fixed(&[of, of], &[of]),
        Numeric::Wrap => stacks.fixed(&[ValType::I64], &[ValType::I32]),
        Numeric::Extend(_) => stacks.fixed(&[ValType::I32], &[ValType::I64]),
        Numeric::ExtendLow(narrow) => {
            let of = narrow.val_type();
            stacks.fixed(&[of], &[of])
        }
    }
}

fn step_block(
    stacks: &mut TypeStacks,
    block: BlockKind,
    leaves: Option<ValType>,
) -> Result<(), InstructionFault>
    ensures goes { OnOk result (Goes (λ _. block_class block (seq leaves)) stacks.old stacks.new) }
    ensures stops { IsIllTyped result → Stops (λ _. block_class block (seq leaves)) stacks.old }
{
    match block {
        BlockKind::Block => stacks.enter(&[], Enclosing::Whole, leaves, leaves),
        // A branch to a loop goes to its start.
        BlockKind::Loop => stacks.enter(&[], Enclosing::Whole, None, leaves),
        BlockKind::If => stacks.enter(&[ValType::I32], Enclosing::FirstArm, leaves, leaves),
    }
}

fn step_index(
    stacks: &mut TypeStacks,
    module: &Module,
    kind: &FuncType,
    body: &Body,
    ends: &[u64],
    op: IndexOp,
    index: u32,
) -> Result<(), InstructionFault>
    requires { ends.now ≡ ends_from 0 body.now.locals }
    ensures goes { OnOk result (Goes (λ fs. index_class (at_frames (context_of module.now kind.now body.now) fs) op index) stacks.old stacks.new) }
    ensures stops { IsIllTyped result → Stops (λ fs. index_class (at_frames (context_of module.now kind.now body.now) fs) op index) stacks.old }
{
    match op {
        IndexOp::Branch => step_branch(stacks, index),
        IndexOp::BranchIf => step_branch_if(stacks, index),
        IndexOp::Call => step_call(stacks, module, index),
        IndexOp::LocalGet => match local_type(kind, body, ends, index) {
            None => Err(no_local(kind, ends, index)),
            Some(of) => stacks.fixed(&[], &[of]),
        },
        IndexOp::LocalSet => match local_type(kind, body, ends, index) {
            None => Err(no_local(kind, ends, index)),
            Some(of) => stacks.fixed(&[of], &[]),
        },
        IndexOp::LocalTee => match local_type(kind, body, ends, index) {
            None => Err(no_local(kind, ends, index)),
            Some(of) => stacks.fixed(&[of], &[of]),
        },
        IndexOp::GlobalGet => match module.globals.as_slice().get(index as usize) {
            None => Err(no_global(module, index)),
            Some(global) => stacks.fixed(&[], &[global.val_type]),
        },
        IndexOp::GlobalSet => match module.globals.as_slice().get(index as usize) {
            None => Err(no_global(module, index)),
            Some(global) => {
                if !global.mutable {
                    return Err(InstructionFault::IllTyped(StepCause::Immutable(index)));
                }
                stacks.fixed(&[global.val_type], &[])
            }
        },
    }
}

// The fault of a global that is not there.
#[cold]
fn no_global(module: &Module, index: u32) -> InstructionFault {
    InstructionFault::IllTyped(StepCause::Missing {
        what: Named::Global,
        index,
        count: module.globals.as_slice().len(),
    })
}

// The fault of a type that is not there.
#[cold]
fn no_type(module: &Module, index: u32) -> InstructionFault {
    InstructionFault::IllTyped(StepCause::Missing {
        what: Named::Type,
        index,
        count: module.types.as_slice().len(),
    })
}

// The fault of an alignment above that of the width.
#[cold]
fn misaligned(exponent: u32, most: u32) -> InstructionFault {
    InstructionFault::IllTyped(StepCause::Alignment { exponent, most })
}

fn step_branch(stacks: &mut TypeStacks, label: u32) -> Result<(), InstructionFault>
    ensures goes { OnOk result (Goes (λ fs. if_some (slice_get (labels_of fs) label) (λ takes. Leaves takes)) stacks.old stacks.new) }
    ensures stops { IsIllTyped result → Stops (λ fs. if_some (slice_get (labels_of fs) label) (λ takes. Leaves takes)) stacks.old }
{
    let Some(target) = stacks.block_at(label) else {
        return Err(stacks.no_label(label));
    };
    stacks.branch(target.label)
}

fn step_branch_if(stacks: &mut TypeStacks, label: u32) -> Result<(), InstructionFault>
    ensures goes { OnOk result (Goes (λ fs. if_some (slice_get (labels_of fs) label) (λ takes. Fixed (takes ++ I32 ∷ []) takes)) stacks.old stacks.new) }
    ensures stops { IsIllTyped result → Stops (λ fs. if_some (slice_get (labels_of fs) label) (λ takes. Fixed (takes ++ I32 ∷ []) takes)) stacks.old }
{
    let Some(target) = stacks.block_at(label) else {
        return Err(stacks.no_label(label));
    };
    stacks.branch_if(target.label)
}

fn step_table(
    stacks: &mut TypeStacks,
    module: &Module,
    kind: &FuncType,
    body: &Body,
    range: LabelRange,
    default: u32,
) -> Result<(), InstructionFault>
    ensures goes { OnOk result (Goes (λ fs. table_class (at_frames (context_of module.now kind.now body.now) fs) (labels_in body.now.labels range) default) stacks.old stacks.new) }
    ensures stops { IsIllTyped result → Stops (λ fs. table_class (at_frames (context_of module.now kind.now body.now) fs) (labels_in body.now.labels range) default) stacks.old }
{
    let Some(labels) = labels_of_range(body.labels.as_slice(), range) else {
        return Err(InstructionFault::IllTyped(StepCause::TableRange));
    };
    let Some(target) = stacks.block_at(default) else {
        return Err(stacks.no_label(default));
    };
    if let Some(label) = other_label(stacks, target.label, labels) {
        return Err(InstructionFault::IllTyped(StepCause::TableLabel { label, default }));
    }
    stacks.branch_by_index(target.label)
}

fn step_call(
    stacks: &mut TypeStacks,
    module: &Module,
    function: u32,
) -> Result<(), InstructionFault>
    ensures goes { OnOk result (Goes (λ _. if_some (function_type module.now function) (λ kind. Fixed kind.params kind.results)) stacks.old stacks.new) }
    ensures stops { IsIllTyped result → Stops (λ _. if_some (function_type module.now function) (λ kind. Fixed kind.params kind.results)) stacks.old }
{
    let Some(callee) = type_of_function(module, function) else {
        return Err(no_function(module, function));
    };
    stacks.fixed(callee.params.as_slice(), callee.results.as_slice())
}

// The index of the table's element is above the parameters.
fn step_call_indirect(
    stacks: &mut TypeStacks,
    module: &Module,
    index: u32,
) -> Result<(), InstructionFault>
    ensures goes { OnOk result (Goes (λ _. if_true (has_table module.now) (if_some (slice_get module.now.types index) (λ kind. Fixed (kind.params ++ I32 ∷ []) kind.results))) stacks.old stacks.new) }
    ensures stops { IsIllTyped result → Stops (λ _. if_true (has_table module.now) (if_some (slice_get module.now.types index) (λ kind. Fixed (kind.params ++ I32 ∷ []) kind.results))) stacks.old }
{
    if module.tables.as_slice().is_empty() {
        return Err(InstructionFault::IllTyped(StepCause::NoTable));
    }
    let Some(callee) = module.types.as_slice().get(index as usize) else {
        return Err(no_type(module, index));
    };
    stacks.fixed_above(
        ValType::I32,
        callee.params.as_slice(),
        callee.results.as_slice(),
    )
}

fn step_memory(
    stacks: &mut TypeStacks,
    module: &Module,
    op: MemoryOp,
    argument: MemArg,
) -> Result<(), InstructionFault>
    ensures goes { OnOk result (Goes (λ _. if_true (has_memory module.now) (memory_class op argument.align)) stacks.old stacks.new) }
    ensures stops { IsIllTyped result → Stops (λ _. if_true (has_memory module.now) (memory_class op argument.align)) stacks.old }
{
    if !is_memory_there(module) {
        return Err(InstructionFault::IllTyped(StepCause::NoMemory));
    }
    match op {
        MemoryOp::Load(load) => {
            let access = load.access();
            let most = access.width().exponent();
            if argument.align > most {
                return Err(misaligned(argument.align, most));
            }
            stacks.fixed(&[ValType::I32], &[access.val_type()])
        }
        MemoryOp::Store(access) => {
            let most = access.width().exponent();
            if argument.align > most {
                return Err(misaligned(argument.align, most));
            }
            stacks.fixed(&[ValType::I32, access.val_type()], &[])
        }
    }
}

fn step_pages(stacks: &mut TypeStacks, module: &Module, op: PagesOp) -> Result<(), InstructionFault>
    ensures goes { OnOk result (Goes (λ _. if_true (has_memory module.now) (pages_class op)) stacks.old stacks.new) }
    ensures stops { IsIllTyped result → Stops (λ _. if_true (has_memory module.now) (pages_class op)) stacks.old }
{
    if !is_memory_there(module) {
        return Err(InstructionFault::IllTyped(StepCause::NoMemory));
    }
    match op {
        PagesOp::Size => stacks.fixed(&[], &[ValType::I32]),
        PagesOp::Grow => stacks.fixed(&[ValType::I32], &[ValType::I32]),
    }
}

fn step_atomic(
    stacks: &mut TypeStacks,
    module: &Module,
    op: AtomicOp,
    argument: MemArg,
) -> Result<(), InstructionFault>
    ensures goes { OnOk result (Goes (λ _. if_true (has_memory module.now) (atomic_class op argument.align)) stacks.old stacks.new) }
    ensures stops { IsIllTyped result → Stops (λ _. if_true (has_memory module.now) (atomic_class op argument.align)) stacks.old }
{
    if !is_memory_there(module) {
        return Err(InstructionFault::IllTyped(StepCause::NoMemory));
    }
    let width = op.width().exponent();
    if argument.align != width {
        return Err(InstructionFault::IllTyped(StepCause::AtomicAlignment {
            exponent: argument.align,
            width,
        }));
    }
    step_aligned(stacks, op)
}

fn step_aligned(stacks: &mut TypeStacks, op: AtomicOp) -> Result<(), InstructionFault>
    ensures goes { OnOk result (Goes (λ _. atomic_operands op) stacks.old stacks.new) }
    ensures stops { IsIllTyped result → Stops (λ _. atomic_operands op) stacks.old }
{
    match op {
        AtomicOp::Notify => stacks.fixed(&[ValType::I32, ValType::I32], &[ValType::I32]),
        AtomicOp::Wait(of) => stacks.fixed(&[ValType::I32, of, ValType::I64], &[ValType::I32]),
        AtomicOp::Load(access) => stacks.fixed(&[ValType::I32], &[access.val_type()]),
        AtomicOp::Store(access) => stacks.fixed(&[ValType::I32, access.val_type()], &[]),
        AtomicOp::Rmw(_, access) => {
            let of = access.val_type();
            stacks.fixed(&[ValType::I32, of], &[of])
        }
        AtomicOp::CompareExchange(access) => {
            let of = access.val_type();
            stacks.fixed(&[ValType::I32, of, of], &[of])
        }
    }
}
