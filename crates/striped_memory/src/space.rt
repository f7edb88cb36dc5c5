//! A shared memory as a space that can stand in parts.

ghost use Rattle.std.specs.Prelude.{◌≡◌, IfOk};
ghost use Rattle.block_objects.specs.SharedMemory.{shared_memory};
ghost use Rattle.block_objects.proofs.Laws.{memory_laws};
ghost use Rattle.waiter_queues.specs.Shared.{shared_values};
ghost use Rattle.shared_parts.specs.Parts.{AreParts, AreOfOne};
ghost use Rattle.memory_parts.specs.SharedCut.{shared_cut};
ghost use Rattle.memory_parts.proofs.Theorem.{cut_laws};
ghost use Rattle.striped_memory.specs.MemoryParts.{memory_lane, memory_fixed, memory_held};

use crate::part::MemoryPart;
use crate::split::split_parts;
use crate::unite::unite_parts;
use block_objects::{MemoryLimits, ObjectValue};
use memory_parts::{Decision, Seen};
use rw_objects::{Entry, Kind, ObjectSpace, Touches, Versions};
use shared_parts::{Eight, Striped};
use std::alloc::Global;
use std::boxed::Box;
use waiter_queues::SharedSpace;
use wasm_types::{NoMemory, Op, Reply};

/// A shared memory that can stand in eight parts.
#[derive(Drop)]
pub struct StripedMemory {
    pub space: SharedSpace,
}

impl ObjectSpace for StripedMemory {
    type Op = Op;

    type Reply = Reply;

    type Value = ObjectValue;

    type Fixed = MemoryLimits;

    ghost meaning = { shared_memory };

    ghost fixed = { λ s. s.space.blocks.limits };

    ghost values = { λ s. shared_values s.space.blocks s.space.queues };

    fn objects(&self) -> u32 {
        self.space.objects()
    }

    fn touches(alloc: Global, op: &Op) -> Touches {
        SharedSpace::touches(alloc, op)
    }

    fn kind(op: &Op) -> Kind {
        SharedSpace::kind(op)
    }

    fn ready(&self, op: &Op) -> bool {
        self.space.ready(op)
    }

    fn apply(&mut self, op: &Op) -> Reply {
        self.space.apply(op)
    }

    fn act(&mut self, versions: &mut Versions, op: &Op) -> (Reply, Entry) {
        self.space.act(versions, op)
    }

    fn image(&self, alloc: Global) -> Result<Vec<u8>, NoMemory> {
        self.space.image(alloc)
    }

    ghost laws = { memory_laws };
}

impl Striped for StripedMemory {
    type Part = MemoryPart;

    type Seen = Seen;

    type Decision = Decision;

    ghost cut = { shared_cut };

    ghost lane = { memory_lane };

    ghost part_fixed = { memory_fixed };

    ghost held = { memory_held };

    fn split(self, alloc: Global) -> Result<Eight<Box<MemoryPart>>, NoMemory> {
        let (blocks, queues) = self.space.into_parts();
        // A fact for the prover: the blocks are sound.
        let _sound = blocks.limits();
        split_parts(alloc, &blocks, &queues)
    }

    fn unite(alloc: Global, parts: Eight<Box<MemoryPart>>) -> Result<StripedMemory, NoMemory>
        requires { AreOfOne shared_cut memory_lane memory_fixed memory_held parts }
        ensures { IfOk result (λ s. AreParts memory_lane memory_fixed memory_held s.space.blocks.limits (shared_values s.space.blocks s.space.queues) parts) }
    {
        let space = unite_parts(alloc, parts)?;
        Ok(StripedMemory { space })
    }

    fn look(part: &MemoryPart, object: u32, op: &Op) -> Seen {
        part.look(object, op)
    }

    fn decide(op: &Op, seen: &[Seen]) -> Decision {
        crate::decide::decide(op, seen)
    }

    fn decide_one(op: &Op, seen: &Seen) -> Decision {
        crate::decide::decide_one(op, seen)
    }

    fn is_ready(decision: &Decision) -> bool {
        decision.ready
    }

    fn reply(decision: &Decision) -> Reply {
        decision.reply
    }

    fn change(part: &mut MemoryPart, object: u32, op: &Op, decision: &Decision) {
        part.change(object, op, decision);
    }

    ghost laws = { cut_laws };
}
