//! The calls of the tests: which a thread makes at each turn, and what they answer.

ghost use Rattle.std.specs.Prelude.{◌≡◌, ◌+◌, ◌≤◌};
ghost use Rattle.block_objects.specs.Bounds.{InBounds};
ghost use Rattle.shared_tests.specs.Limits.{test_limits};

use crate::memory::limits;
use block_objects::{MemoryLimits, ObjectValue, operations_within_fit};
use shared_core::{Hold, Shared};
use shared_parts::{Opening, Seat, Tried};
use std::alloc::Global;
use std::sync::Wait;
use striped_memory::StripedMemory;
use wasm_types::{Access, Action, Extent, Load, NoMemory, Op, Reply, RmwOp, ValType, Value};

/// All numbers of the tests have 64 bits.
const NUMBER: Access = Access::Whole(ValType::I64);

/// What a thread does at a turn: it changes a number that all share, loads it, stores a number of its own, and stores
/// and loads a number over the border of two blocks, which all share too.
pub(crate) fn action(thread: u32, turn: u32) -> Action
    ensures { InBounds 65536 result }
{
    let slot = thread % 4;
    let own = 1024 + 64 * slot + 8 * (turn / 5 % 8);
    let border = 60 + 64 * (turn / 5 % 4);
    let operand = u64::from(turn) * 4 + u64::from(slot);
    match (turn % 5 + slot) % 5 {
        0 => Action::Rmw {
            op: RmwOp::Add,
            access: NUMBER,
            address: 0,
            operand,
        },
        1 => load(0),
        2 => store(own, operand),
        3 => store(border, operand),
        _ => load(border),
    }
}

/// A load of a number.
pub(crate) fn load(address: u32) -> Action
    requires { address + 8 ≤ 65536 }
    ensures { InBounds 65536 result }
{
    Action::Load {
        load: Load::Whole(ValType::I64),
        address,
    }
}

/// A store of a number.
fn store(address: u32, operand: u64) -> Action
    requires { address + 8 ≤ 65536 }
    ensures { InBounds 65536 result }
{
    Action::Store {
        access: NUMBER,
        address,
        operand,
    }
}

/// Tries a call once.
pub(crate) fn enter<J: Opening<StripedMemory, ObjectValue, MemoryLimits>, R: Wait, H: Hold>(
    rt: &R,
    alloc: Global,
    shared: &Shared<StripedMemory, J>,
    seat: &mut Seat<StripedMemory, J>,
    action: Action,
    hold: &H,
) -> Result<Tried<Reply>, NoMemory>
    requires fixed { J.named.memory.fixed ≡ test_limits }
    requires within { InBounds 65536 action }
    ensures { seat.new.thread ≡ seat.old.thread }
{
    operations_within_fit();
    let limits = limits();
    let extent = Extent {
        initial: limits.initial,
        block: limits.block,
    };
    shared.access(rt, alloc, seat, Op { extent, action }, hold)
}

/// How many calls were made, and what they answered, as one number that depends on their order.
#[derive(Clone, Copy, Debug, PartialEq, Eq, Drop)]
pub(crate) struct Answers {
    pub(crate) made: u32,
    pub(crate) digest: u64,
}

impl Answers {
    /// None yet.
    pub(crate) fn none() -> Answers {
        Answers { made: 0, digest: 0 }
    }

    /// One more.
    pub(crate) fn add(&mut self, number: u64) {
        self.made = self.made.saturating_add(1);
        self.digest = self.digest.wrapping_mul(31).wrapping_add(number);
    }
}

/// The number of an answer; 0 where there is none.
pub(crate) fn number_of(reply: Reply) -> u64 {
    match reply {
        Reply::Value(Value::I64(number)) => number,
        _ => 0,
    }
}
