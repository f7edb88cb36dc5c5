//! Operations on a shared memory with their replies and entries, taken from worked examples.

ghost use Rattle.std.specs.Prelude.{◌≤◌, IfOk};

use crate::checked::act;
use block_objects::MemoryLimits;
use rw_objects::{Entry, ObjectSpace, Versioned};
use std::alloc::Global;
use std::process::Abort;
use std::test::Fail;
use waiter_queues::SharedSpace;
use wasm_types::{
    Access, Action, Block, Data, Extension, Extent, Items, Load, MOST_PAGES, Narrow, Op, Reply,
    RmwOp, ValType, Value,
};

/// What an operation does, in short.
#[derive(Clone, Copy, Debug)]
enum Call {
    /// Loads an i32 from an address.
    Load(u32),
    /// Loads two bytes from an address as an i64.
    LoadNarrow(Extension, u32),
    /// Stores an operand at an address.
    Store(Access, u32, u64),
    /// Subtracts an operand from the i32 at an address.
    Subtract(u32, u32),
    /// Writes 9 to the byte at an address where it is as expected.
    Exchange(u32, u64),
    Size,
    Grow(u32),
    /// A thread waits at an address for an i32.
    Wait(u32, u32, u64),
    Notify(u32, u32),
    Resume(u32, u32),
    TimeOut(u32, u32),
}

/// An operation, and what it answers with its entry.
type Row = (Call, &'static str);

/// Operations, in their order, on a memory that opens with so many pages, grows up to so many, and has blocks of so
/// many bytes.
struct Play {
    pages: (u32, u32),
    block: u32,
    rows: &'static [Row],
}

/// The limits of the memory of a play.
fn limits_of(play: &Play) -> Result<MemoryLimits, Fail>
    ensures order { IfOk result (λ limits. limits.initial ≤ limits.capacity) }
    ensures limit { IfOk result (λ limits. limits.capacity ≤ MOST_PAGES) }
{
    let (initial, capacity) = play.pages;
    match Block::new(play.block) {
        Ok(block) if initial <= capacity && capacity <= MOST_PAGES => Ok(MemoryLimits {
            initial,
            capacity,
            block,
        }),
        _ => Err(Fail::new("no such memory")),
    }
}

/// The memory of a play as it opens, without segments.
fn open(alloc: Global, play: &Play) -> Result<Versioned<SharedSpace>, Fail> {
    let limits = limits_of(play)?;
    Ok(Versioned::new(alloc, SharedSpace::new(alloc, limits, &[])?)?)
}

fn action_of(call: Call) -> Action {
    match call {
        Call::Load(address) => Action::Load {
            load: Load::Whole(ValType::I32),
            address,
        },
        Call::LoadNarrow(extension, address) => Action::Load {
            load: Load::Narrow(Narrow::I64Of16, extension),
            address,
        },
        Call::Store(access, address, operand) => Action::Store {
            access,
            address,
            operand,
        },
        Call::Subtract(address, operand) => Action::Rmw {
            op: RmwOp::Subtract,
            access: I32,
            address,
            operand: u64::from(operand),
        },
        Call::Exchange(address, expected) => Action::CompareExchange {
            access: I32_OF_8,
            address,
            expected,
            replacement: 9,
        },
        Call::Size => Action::Size,
        Call::Grow(pages) => Action::Grow { pages },
        Call::Wait(thread, address, expected) => Action::Wait {
            width: ValType::I32,
            thread,
            address,
            expected,
        },
        Call::Notify(address, count) => Action::Notify { address, count },
        Call::Resume(thread, address) => Action::Resume { thread, address },
        Call::TimeOut(thread, address) => Action::TimeOut { thread, address },
    }
}

/// Makes an operation, if it is ready.
fn make(alloc: Global, memory: &mut Versioned<SharedSpace>, call: Call) -> Option<(Reply, Entry)> {
    let limits = memory.space.limits();
    let extent = Extent {
        initial: limits.initial,
        block: limits.block,
    };
    let action = action_of(call);
    act(alloc, memory, &Op { extent, action })
}

/// What an operation answers, and its entry.
fn made(alloc: Global, memory: &mut Versioned<SharedSpace>, call: Call) -> Result<String, Fail> {
    match make(alloc, memory, call) {
        Some((reply, entry)) => Ok(format!(in alloc; "{reply:?} {entry}")?),
        None => Ok(format!(in alloc; "not ready")?),
    }
}

/// Makes operations in order, and compares what they answer and log.
fn compare(
    rt: &impl Abort,
    alloc: Global,
    memory: &mut Versioned<SharedSpace>,
    rows: &[Row],
) -> Result<(), Fail> {
    for (call, want) in rows {
        let found = made(alloc, memory, *call)?;
        assert_eq!(rt; found.as_str(), *want, "{call:?}");
    }
    Ok(())
}

fn run(rt: &impl Abort, alloc: Global, play: &Play) -> Result<(), Fail> {
    let mut memory = open(alloc, play)?;
    compare(rt, alloc, &mut memory, play.rows)
}

fn run_all(rt: &impl Abort, alloc: Global, plays: &[Play]) -> Result<(), Fail> {
    for play in plays {
        run(rt, alloc, play)?;
    }
    Ok(())
}

const I32: Access = Access::Whole(ValType::I32);

const I64: Access = Access::Whole(ValType::I64);

const I32_OF_8: Access = Access::Narrow(Narrow::I32Of8);

const I64_OF_16: Access = Access::Narrow(Narrow::I64Of16);

static BORDERS_OF_BLOCKS: &[Play] = &[
    Play {
        pages: (1, 1),
        block: 64,
        rows: &[
            (Call::Store(I64, 60, 1), "Stored access w1@0/0 w3@0/0"),
            (Call::Load(60), "Value(I32(1)) access r1@1"),
            (Call::Load(61), "Value(I32(0)) access r1@1 r3@1"),
            (Call::Store(I64, 56, 2), "Stored access w1@1/2"),
            (Call::Load(65_532), "Value(I32(0)) access r2047@0"),
            (Call::Load(65_533), "not ready"),
        ],
    },
    Play {
        pages: (1, 2),
        block: 4096,
        rows: &[
            (Call::Store(I64, 60, 1), "Stored access w1@0/0"),
            (Call::Store(I64, 4092, 1), "Stored access w1@1/0 w3@0/0"),
            (Call::Grow(1), "Value(I32(1)) access w0@0/0"),
            (Call::Load(65_536), "Value(I32(0)) access r0@1 r33@0"),
            (Call::Wait(0, 69_632, 0), "Sleeps access r0@1 r35@0 w36@0/0"),
        ],
    },
    Play {
        pages: (2, 2),
        block: 2048,
        rows: &[(Call::Store(I32, 65_536, 7), "Stored access w65@0/0")],
    },
];

/// A store over the border of two blocks touches both; so does an access one byte past a block's end.
#[test]
fn borders_of_blocks(rt: HostRuntime) -> Result<(), Fail> {
    run_all(&rt, rt.alloc(), BORDERS_OF_BLOCKS)
}

static LENGTHS: &[Play] = &[
    Play {
        pages: (1, 2),
        block: 64,
        rows: &[
            (Call::Load(65_536), "Trap(OutOfBounds) access r0@0 r2049@0"),
            (Call::Grow(1), "Value(I32(1)) access w0@0/1"),
        ],
    },
    Play {
        pages: (1, 2),
        block: 64,
        rows: &[
            (Call::Grow(1), "Value(I32(1)) access w0@0/0"),
            (Call::Load(65_536), "Value(I32(0)) access r0@1 r2049@0"),
        ],
    },
    Play {
        pages: (1, 3),
        block: 64,
        rows: &[
            (
                Call::Store(I32, 65_536, 1),
                "Trap(OutOfBounds) access r0@0 w2049@0/0",
            ),
            (Call::Load(65_536), "Trap(OutOfBounds) access r0@0 r2049@1"),
            (
                Call::Store(I64, 65_532, 1),
                "Trap(OutOfBounds) access r0@0 w2047@0/0 w2049@1/1",
            ),
            (
                Call::Wait(0, 65_536, 0),
                "Trap(OutOfBounds) access r0@0 r2049@2 w2050@0/0",
            ),
            (
                Call::Notify(65_536, 1),
                "Trap(OutOfBounds) access r0@0 w2050@1/0",
            ),
            (Call::Size, "Value(I32(1)) access r0@0"),
            (Call::Grow(1), "Value(I32(1)) access w0@0/6"),
            (
                Call::Store(I64, 65_532, 1 << 32),
                "Stored access r0@1 w2047@1/0 w2049@2/1",
            ),
            (Call::Load(65_536), "Value(I32(1)) access r0@1 r2049@3"),
            (Call::Load(131_068), "Value(I32(0)) access r0@1 r4095@0"),
            (
                Call::Load(131_069),
                "Trap(OutOfBounds) access r0@1 r4095@0 r4097@0",
            ),
            (Call::Load(196_605), "not ready"),
        ],
    },
];

/// An access that ends past the initial length reads the length, and traps where it ends past the present one.
#[test]
fn lengths(rt: HostRuntime) -> Result<(), Fail> {
    run_all(&rt, rt.alloc(), LENGTHS)
}

static CAPACITIES: &[Play] = &[
    Play {
        pages: (1, 16),
        block: 64,
        rows: &[
            (Call::Grow(15), "Value(I32(1)) access w0@0/0"),
            (Call::Grow(1), "Value(I32(4294967295)) access w0@1/0"),
        ],
    },
    Play {
        pages: (1, 100),
        block: 64,
        rows: &[
            (Call::Grow(15), "Value(I32(1)) access w0@0/0"),
            (Call::Grow(1), "Value(I32(16)) access w0@1/0"),
            (Call::Grow(84), "Value(I32(4294967295)) access w0@2/0"),
            (Call::Grow(83), "Value(I32(17)) access w0@3/0"),
        ],
    },
];

/// A memory grows to its capacity and not past it.
#[test]
fn capacities(rt: HostRuntime) -> Result<(), Fail> {
    run_all(&rt, rt.alloc(), CAPACITIES)
}

static WAITERS: &[Play] = &[
    Play {
        pages: (1, 1),
        block: 64,
        rows: &[
            (Call::Wait(0, 0, 5), "Value(I32(1)) access r1@0 w2@0/0"),
            (
                Call::Wait(0, 2, 0),
                "Trap(UnalignedAtomic) access r1@0 w2@1/0",
            ),
            (Call::Notify(0, 1), "Value(I32(0)) access w2@2/0"),
        ],
    },
    Play {
        pages: (1, 1),
        block: 64,
        rows: &[
            (Call::Wait(2, 0, 0), "Sleeps access r1@0 w2@0/0"),
            (Call::Wait(0, 0, 0), "Sleeps access r1@0 w2@1/0"),
            (Call::Wait(1, 0, 0), "Sleeps access r1@0 w2@2/0"),
            (Call::Wait(3, 4, 0), "Sleeps access r1@0 w2@3/0"),
            (Call::Notify(0, 2), "Value(I32(2)) access w2@4/0"),
            (Call::Resume(1, 0), "not ready"),
            (Call::Resume(0, 0), "Value(I32(0)) woken w2@5/0"),
            (Call::Resume(2, 0), "Value(I32(0)) woken w2@6/0"),
            (Call::Notify(0, u32::MAX), "Value(I32(1)) access w2@7/0"),
            (Call::Resume(1, 0), "Value(I32(0)) woken w2@8/0"),
            (Call::Resume(3, 4), "not ready"),
            (Call::Notify(4, 0), "Value(I32(0)) access w2@9/0"),
            (Call::TimeOut(3, 0), "not ready"),
            (Call::TimeOut(3, 4), "Value(I32(2)) timedout w2@10/0"),
        ],
    },
    Play {
        pages: (1, 1),
        block: 64,
        rows: &[
            (Call::Wait(0, 0, 0), "Sleeps access r1@0 w2@0/0"),
            (Call::TimeOut(0, 0), "Value(I32(2)) timedout w2@1/0"),
            (Call::Notify(0, 1), "Value(I32(0)) access w2@2/0"),
            (Call::Wait(0, 0, 0), "Sleeps access r1@0 w2@3/0"),
            (Call::Wait(0, 4, 0), "Sleeps access r1@0 w2@4/0"),
            (Call::Wait(16, 0, 0), "Sleeps access r1@0 w2@5/0"),
            (Call::Notify(4, 9), "Value(I32(0)) access w2@6/0"),
            (Call::Notify(0, 9), "Value(I32(1)) access w2@7/0"),
            (Call::TimeOut(0, 0), "not ready"),
            (Call::Resume(0, 0), "Value(I32(0)) woken w2@8/0"),
        ],
    },
];

/// Waiters are woken in their order, at their address; who is not woken can't go on, and who is can't time out.
#[test]
fn waiters(rt: HostRuntime) -> Result<(), Fail> {
    run_all(&rt, rt.alloc(), WAITERS)
}

static WOKEN_WAITERS_STAND_ONCE: &[Play] = &[Play {
    pages: (1, 1),
    block: 64,
    rows: &[
        (Call::Wait(0, 0, 0), "Sleeps access r1@0 w2@0/0"),
        (Call::Notify(0, 1), "Value(I32(1)) access w2@1/0"),
        (Call::Wait(0, 0, 0), "Sleeps access r1@0 w2@2/0"),
        (Call::Notify(0, 9), "Value(I32(0)) access w2@3/0"),
        (Call::Resume(0, 0), "Value(I32(0)) woken w2@4/0"),
        (Call::Resume(0, 0), "not ready"),
    ],
}];

/// A thread that was woken and has not gone on can't wait again beside that.
#[test]
fn woken_waiters_stand_once(rt: HostRuntime) -> Result<(), Fail> {
    run_all(&rt, rt.alloc(), WOKEN_WAITERS_STAND_ONCE)
}

static NUMBERS: &[Play] = &[Play {
    pages: (1, 1),
    block: 64,
    rows: &[
        (Call::Store(I32_OF_8, 0, 261), "Stored access w1@0/0"),
        (Call::Load(0), "Value(I32(5)) access r1@1"),
        (Call::Exchange(0, 261), "Value(I32(5)) access w1@1/1"),
        (Call::Load(0), "Value(I32(5)) access r1@2"),
        (Call::Exchange(0, 5), "Value(I32(5)) access w1@2/1"),
        (Call::Load(0), "Value(I32(9)) access r1@3"),
        (Call::Store(I64_OF_16, 8, 0x1_FFFD), "Stored access w1@3/1"),
        (
            Call::LoadNarrow(Extension::Signed, 8),
            "Value(I64(18446744073709551613)) access r1@4",
        ),
        (
            Call::LoadNarrow(Extension::Unsigned, 8),
            "Value(I64(65533)) access r1@4",
        ),
        (Call::Subtract(8, 0xFFFE), "Value(I32(65533)) access w1@4/2"),
        (Call::Load(8), "Value(I32(4294967295)) access r1@5"),
    ],
}];

/// Narrow accesses wrap what they store, and extend what they load.
#[test]
fn numbers(rt: HostRuntime) -> Result<(), Fail> {
    run_all(&rt, rt.alloc(), NUMBERS)
}

/// A memory of one page and at most two that opens with two segments, of which the second writes over the first.
fn open_written(alloc: Global) -> Result<Versioned<SharedSpace>, Fail> {
    let limits = MemoryLimits {
        initial: 1,
        capacity: 2,
        block: Block::least(),
    };
    let segments = [
        Data {
            memory: 0,
            offset: Value::I32(0),
            bytes: Items::from_vec(vec![in alloc; 4u8; 2]?),
        },
        Data {
            memory: 0,
            offset: Value::I32(1),
            bytes: Items::from_vec(vec![in alloc; 5u8; 1]?),
        },
    ];
    Ok(Versioned::new(alloc, SharedSpace::new(alloc, limits, &segments)?)?)
}

static WRITTEN: &[Row] = &[
    (Call::Load(0), "Value(I32(1284)) access r1@0"),
    (Call::Grow(1), "Value(I32(1)) access w0@0/0"),
];

/// The image of the memory behind these operations.
fn image(rt: &impl Abort, alloc: Global) -> Result<Vec<u8>, Fail> {
    let mut memory = open_written(alloc)?;
    compare(rt, alloc, &mut memory, WRITTEN)?;
    Ok(memory.space.image(alloc)?)
}

/// Segments are written in their order, and the image is the bytes at the present length.
#[test]
fn segments(rt: HostRuntime) -> Result<(), Fail> {
    let image = image(&rt, rt.alloc())?;
    assert_eq!(rt; image.len(), 131_072);
    assert_eq!(rt; image.get(..3), Some([4u8, 5, 0].as_slice()));
    Ok(())
}
