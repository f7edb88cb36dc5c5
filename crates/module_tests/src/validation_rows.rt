//! Functions of parameters i32 and i64 and of locals i64, none of i32, two i32 and i64, by their instructions: well
//! typed ones, and others with the place of their fault. Their labels are 9, 1 and 2.

use wasm_types::{
    Access, AtomicOp, BinaryOp, BlockKind, Comparison, Extension, IndexOp, Instr, LabelRange, Load,
    MemArg, MemoryOp, Narrow, Numeric, PagesOp, Plain, RmwOp, UnaryOp, ValType, Value,
};

const I32: ValType = ValType::I32;

const I64: ValType = ValType::I64;

pub(crate) const END: Instr = Instr::Plain(Plain::End);

const ELSE: Instr = Instr::Plain(Plain::Else);

const NOP: Instr = Instr::Plain(Plain::Nop);

pub(crate) const DROP: Instr = Instr::Plain(Plain::Discard);

const SELECT: Instr = Instr::Plain(Plain::Select);

const RETURN: Instr = Instr::Plain(Plain::Return);

const UNREACHABLE: Instr = Instr::Plain(Plain::Unreachable);

const WORD: Instr = Instr::Const(Value::I32(0));

const ONE: Instr = Instr::Const(Value::I32(1));

const LONG: Instr = Instr::Const(Value::I64(0));

const LOOPING: Instr = Instr::Block(BlockKind::Loop, Some(I32));

const CHOOSING: Instr = Instr::Block(BlockKind::If, Some(I64));

const MAYBE: Instr = Instr::Block(BlockKind::If, None);

const DEFAULT_ONLY: Instr = Instr::BranchTable(LabelRange { first: 0, count: 0 }, 1);

const TABLE: Instr = Instr::BranchTable(LabelRange { first: 1, count: 2 }, 0);

const BYTE_ARG: MemArg = MemArg {
    align: 0,
    offset: 0,
};

/// The same at another offset.
const FAR_ARG: MemArg = MemArg {
    align: 0,
    offset: 9,
};

const HALF_ARG: MemArg = MemArg {
    align: 1,
    offset: 0,
};

const WORD_ARG: MemArg = MemArg {
    align: 2,
    offset: 0,
};

const LONG_ARG: MemArg = MemArg {
    align: 3,
    offset: 0,
};

/// An addition at an aligned address.
const ADD: Instr = Instr::Atomic(AtomicOp::Rmw(RmwOp::Add, Access::Whole(I32)), WORD_ARG);

/// The same, with the alignment of half a word.
const ADD_HALF: Instr = Instr::Atomic(AtomicOp::Rmw(RmwOp::Add, Access::Whole(I32)), HALF_ARG);

/// Operations of one type, and a sum that is left over.
macro_rules! numerics {
    ($of:expr, $operand:expr) => {
        &[
            $operand,
            Instr::Numeric(Numeric::IsZero($of)),
            DROP,
            $operand,
            $operand,
            Instr::Numeric(Numeric::Compare($of, Comparison::Equal)),
            DROP,
            $operand,
            Instr::Numeric(Numeric::Unary($of, UnaryOp::CountOnes)),
            $operand,
            Instr::Numeric(Numeric::Binary($of, BinaryOp::Add)),
            Instr::Numeric(Numeric::Binary($of, BinaryOp::Add)),
            END,
        ]
    };
}

/// Accesses of one width by this operand and argument, and a store whose alignment is too wide.
macro_rules! accesses {
    ($narrow:expr, $operand:expr, $argument:expr, $too_wide:expr) => {
        &[
            WORD,
            Instr::Memory(
                MemoryOp::Load(Load::Narrow($narrow, Extension::Unsigned)),
                $argument,
            ),
            Instr::Numeric(Numeric::ExtendLow($narrow)),
            DROP,
            WORD,
            $operand,
            Instr::Memory(MemoryOp::Store(Access::Narrow($narrow)), FAR_ARG),
            WORD,
            WORD,
            Instr::Atomic(AtomicOp::Load(Access::Narrow($narrow)), $argument),
            Instr::Atomic(AtomicOp::Store(Access::Narrow($narrow)), $argument),
            WORD,
            $operand,
            Instr::Atomic(
                AtomicOp::Rmw(RmwOp::Exchange, Access::Narrow($narrow)),
                $argument,
            ),
            DROP,
            WORD,
            $operand,
            $operand,
            Instr::Atomic(
                AtomicOp::CompareExchange(Access::Narrow($narrow)),
                $argument,
            ),
            DROP,
            WORD,
            $operand,
            Instr::Memory(MemoryOp::Store(Access::Narrow($narrow)), $too_wide),
            END,
        ]
    };
}

pub(crate) static WELL_TYPED: &[&[Instr]] = &[
    &[
        UNREACHABLE,
        SELECT,
        Instr::Numeric(Numeric::Wrap),
        DROP,
        END,
    ],
    &[
        WORD, WORD, WORD, SELECT, DROP, LONG, LONG, WORD, SELECT, DROP, END,
    ],
    &[
        Instr::Block(BlockKind::Block, Some(I32)),
        WORD,
        Instr::Index(IndexOp::Branch, 0),
        END,
        DROP,
        END,
    ],
    &[
        LOOPING,
        WORD,
        WORD,
        Instr::Index(IndexOp::BranchIf, 0),
        END,
        DROP,
        END,
    ],
    &[
        Instr::Block(BlockKind::Block, Some(I64)),
        LONG,
        WORD,
        Instr::Index(IndexOp::BranchIf, 0),
        END,
        DROP,
        END,
    ],
    &[WORD, CHOOSING, LONG, ELSE, LONG, END, DROP, END],
    &[WORD, MAYBE, NOP, END, END],
    &[RETURN, DROP, END],
    &[
        Instr::Block(BlockKind::Block, None),
        WORD,
        DEFAULT_ONLY,
        END,
        END,
    ],
    &[
        Instr::Block(BlockKind::Block, None),
        Instr::Block(BlockKind::Block, None),
        WORD,
        TABLE,
        END,
        END,
        END,
    ],
    &[
        WORD,
        LONG,
        Instr::Index(IndexOp::Call, 0),
        WORD,
        LONG,
        WORD,
        Instr::CallIndirect(0),
        END,
    ],
    &[
        Instr::Index(IndexOp::LocalGet, 1),
        Instr::Index(IndexOp::LocalSet, 2),
        WORD,
        Instr::Index(IndexOp::LocalTee, 0),
        DROP,
        END,
    ],
    &[
        Instr::Index(IndexOp::GlobalGet, 0),
        DROP,
        Instr::Index(IndexOp::GlobalGet, 1),
        Instr::Index(IndexOp::GlobalSet, 1),
        END,
    ],
    &[
        WORD,
        WORD,
        Instr::Atomic(AtomicOp::Notify, WORD_ARG),
        DROP,
        Instr::Fence,
        END,
    ],
    &[
        WORD,
        WORD,
        LONG,
        Instr::Atomic(AtomicOp::Wait(I32), WORD_ARG),
        WORD,
        LONG,
        LONG,
        Instr::Atomic(AtomicOp::Wait(I64), LONG_ARG),
        DROP,
        DROP,
        END,
    ],
    &[
        Instr::Pages(PagesOp::Size),
        Instr::Pages(PagesOp::Grow),
        DROP,
        END,
    ],
    // The locals are found in their groups.
    &[
        Instr::Index(IndexOp::LocalGet, 0),
        Instr::Numeric(Numeric::IsZero(I32)),
        DROP,
        Instr::Index(IndexOp::LocalGet, 1),
        Instr::Numeric(Numeric::IsZero(I64)),
        DROP,
        Instr::Index(IndexOp::LocalGet, 2),
        Instr::Numeric(Numeric::IsZero(I64)),
        DROP,
        Instr::Index(IndexOp::LocalGet, 3),
        Instr::Numeric(Numeric::IsZero(I32)),
        DROP,
        Instr::Index(IndexOp::LocalGet, 4),
        Instr::Numeric(Numeric::IsZero(I32)),
        DROP,
        Instr::Index(IndexOp::LocalGet, 5),
        Instr::Numeric(Numeric::IsZero(I64)),
        DROP,
        END,
    ],
];

pub(crate) static FAULTY: &[(&[Instr], u32)] = &[
    (&[NOP, NOP, ONE, ADD, DROP, END], 3),
    (&[WORD, ONE, ADD_HALF, DROP, END], 2),
    (&[], 0),
    (&[NOP], 1),
    (&[END, NOP], 1),
    (&[WORD, LONG, WORD, SELECT, DROP, END], 3),
    (
        &[
            Instr::Block(BlockKind::Block, Some(I32)),
            Instr::Index(IndexOp::Branch, 0),
            END,
            DROP,
            END,
        ],
        1,
    ),
    (
        &[
            Instr::Block(BlockKind::Block, Some(I64)),
            WORD,
            Instr::Index(IndexOp::BranchIf, 0),
            END,
            DROP,
            END,
        ],
        2,
    ),
    (&[WORD, CHOOSING, LONG, END, DROP, END], 3),
    (&[WORD, CHOOSING, LONG, ELSE, WORD, END, DROP, END], 5),
    (&[Instr::Block(BlockKind::Block, None), ELSE, END, END], 1),
    (&[WORD, END], 1),
    (&[Instr::Index(IndexOp::Branch, 1), END], 0),
    (
        &[
            Instr::Block(BlockKind::Block, Some(I32)),
            Instr::Block(BlockKind::Block, None),
            WORD,
            TABLE,
            END,
            WORD,
            END,
            DROP,
            END,
        ],
        3,
    ),
    (&[Instr::Index(IndexOp::LocalGet, 6), DROP, END], 0),
    (&[LONG, Instr::Index(IndexOp::LocalTee, 0), END], 1),
    (&[LONG, Instr::Index(IndexOp::GlobalSet, 0), END], 1),
    (&[Instr::Index(IndexOp::GlobalGet, 2), END], 0),
    (
        &[
            WORD,
            LONG,
            LONG,
            Instr::Atomic(AtomicOp::Wait(I64), WORD_ARG),
            DROP,
            END,
        ],
        3,
    ),
    (numerics!(I32, WORD), 11),
    (numerics!(I64, LONG), 11),
    // A number that is extended twice.
    (
        &[
            LONG,
            Instr::Numeric(Numeric::Wrap),
            Instr::Numeric(Numeric::Extend(Extension::Signed)),
            Instr::Numeric(Numeric::Extend(Extension::Signed)),
            END,
        ],
        3,
    ),
    (accesses!(Narrow::I32Of8, WORD, BYTE_ARG, HALF_ARG), 22),
    (accesses!(Narrow::I32Of16, WORD, HALF_ARG, WORD_ARG), 22),
    (accesses!(Narrow::I64Of8, LONG, BYTE_ARG, HALF_ARG), 22),
    (accesses!(Narrow::I64Of16, LONG, HALF_ARG, WORD_ARG), 22),
    (accesses!(Narrow::I64Of32, LONG, WORD_ARG, LONG_ARG), 22),
];
