//! Why an instruction is not typed.

use wasm_types::ValType;

/// The most operands that a row has.
const MOST_SHOWN: usize = 4;

/// An operand on the stack.
#[derive(Clone, Copy, Debug, PartialEq, Eq)]
pub enum Operand {
    I32,
    I64,
    /// Of any type: it comes from code that is never reached.
    Any,
}

/// The upper operands of a stack: at most four, the last one on top, and whether there are more below them.
#[derive(Clone, Copy, Debug, PartialEq, Eq)]
pub struct Row {
    /// From the fourth from the top, down to the top: None where the stack has fewer.
    pub operands: [Option<Operand>; 4],
    /// Whether there are more below them.
    pub more: bool,
}

/// What an instruction needs on the stack.
#[derive(Clone, Copy, Debug, PartialEq, Eq)]
pub enum Needs {
    /// These operands on top.
    Upper(Row),
    /// These operands, and no others in the block.
    Alone(Row),
    /// One operand.
    One,
    /// Two operands of one type, and an i32 on top.
    Alike,
}

/// What an instruction names by an index.
#[derive(Clone, Copy, Debug, PartialEq, Eq)]
pub enum Named {
    Local,
    Global,
    Function,
    Type,
}

/// Why an instruction is not typed.
#[derive(Clone, Copy, Debug, PartialEq, Eq)]
pub enum StepCause {
    /// It needs other operands than its block has on the stack.
    Operands {
        needs: Needs,
        finds: Row,
    },
    /// Its label is out of range: so many blocks are open.
    Label {
        label: u32,
        open: usize,
    },
    /// A label of its table takes other operands than the default one, or is out of range.
    TableLabel {
        label: u32,
        default: u32,
    },
    /// The function has not the labels of its table.
    TableRange,
    /// What it names is out of range: there are so many.
    Missing {
        what: Named,
        index: u32,
        count: usize,
    },
    /// Its global is not mutable.
    Immutable(u32),
    /// Its alignment, as an exponent of two, is above that of its width.
    Alignment {
        exponent: u32,
        most: u32,
    },
    /// Its alignment, as an exponent of two, is another one than that of its width.
    AtomicAlignment {
        exponent: u32,
        width: u32,
    },
    /// The module has no memory.
    NoMemory,
    /// The module has no table.
    NoTable,
    /// `else` stands outside the first arm of an `if`.
    Else,
    /// An `if` without an `else` leaves a result.
    NoElse(Operand),
    /// It stands behind the last `end`.
    BehindEnd,
}

// The item so far below the last one; 0 is the last.
fn from_top<T: Copy>(items: &[T], depth: usize) -> Option<T> {
    let at = items.len().checked_sub(depth)?.checked_sub(1)?;
    items.get(at).copied()
}

impl Operand {
    /// The operand of a type; of any, where there is none.
    pub(crate) fn of(val_type: Option<ValType>) -> Operand {
        match val_type {
            None => Operand::Any,
            Some(ValType::I32) => Operand::I32,
            Some(ValType::I64) => Operand::I64,
        }
    }
}

// The operand so far below the one on top.
fn found(operands: &[Option<ValType>], depth: usize) -> Option<Operand> {
    match from_top(operands, depth) {
        None => None,
        Some(operand) => Some(Operand::of(operand)),
    }
}

// The operand so far below the one on top, of operands of these types and perhaps one more above them.
fn wanted(types: &[ValType], above: Option<ValType>, depth: usize) -> Option<Operand> {
    if above.is_none() {
        return type_from_top(types, depth);
    }
    match depth.checked_sub(1) {
        None => Some(Operand::of(above)),
        Some(depth) => type_from_top(types, depth),
    }
}

fn type_from_top(types: &[ValType], depth: usize) -> Option<Operand> {
    match from_top(types, depth) {
        None => None,
        Some(of) => Some(Operand::of(Some(of))),
    }
}

impl Row {
    /// The upper ones of operands, None for any type.
    #[cold]
    pub(crate) fn of_operands(operands: &[Option<ValType>]) -> Row {
        Row {
            operands: [
                found(operands, 3),
                found(operands, 2),
                found(operands, 1),
                found(operands, 0),
            ],
            more: operands.len() > MOST_SHOWN,
        }
    }

    /// The upper ones of operands of these types, and perhaps one more above them.
    #[cold]
    pub(crate) fn of_types(types: &[ValType], above: Option<ValType>) -> Row {
        let most = if above.is_none() {
            MOST_SHOWN
        } else {
            MOST_SHOWN - 1
        };
        Row {
            operands: [
                wanted(types, above, 3),
                wanted(types, above, 2),
                wanted(types, above, 1),
                wanted(types, above, 0),
            ],
            more: types.len() > most,
        }
    }

    /// At most one operand.
    #[cold]
    pub(crate) fn of_result(of: Option<ValType>) -> Row {
        match of {
            None => Row::of_types(&[], None),
            Some(of) => Row::of_types(&[of], None),
        }
    }
}
