//! A thread that runs with no other thread.

ghost use Rattle.std.specs.Prelude.{◌≡◌, ◌≤◌, true, IfOk, OnOk};
ghost use Rattle.rw_objects.specs.Counts.{no_counts};
ghost use Rattle.rw_objects.specs.Memory.{memory_of, memory_with};
ghost use Rattle.striped_memory.specs.Shared.{opening_values};
ghost use Rattle.rw_objects.specs.Alone.{IsSoundAlone};
ghost use Rattle.event_core.specs.End.{outcome_of};
ghost use Rattle.thread_plan.specs.Plans.{IsPlanOf};
ghost use Rattle.wasm_types.specs.Segments.{segments_fit};
ghost use Rattle.wasm_types.specs.Memories.{first_memory};
ghost use Rattle.wasm_types.specs.Memories.{initial_by};
ghost use Rattle.thread_words.specs.ThreadCode.{thread_code};
ghost use Rattle.wreplay_bench.specs.Alone.{GoesTo, IsOpening, IsOver, alone_of};

use crate::ended::Ended;
use crate::fault::Fault;
use block_objects::MemoryLimits;
use event_core::outcome_of;
use integer_machine::{ThreadState, memory_limits};
use rw_objects::{Machine, NoLog, Versioned};
use std::alloc::Global;
use striped_memory::SharedSpace;
use thread_plan::Plan;
use validator::Valid;
use wasm_types::{Block, MOST_PAGES, Module, NoMemory, Profile};

/// A thread of a plan and its memory, with no other thread.
#[derive(Drop)]
pub struct Alone<'a> {
    pub thread: ThreadState<'a>,
    pub memory: Versioned<SharedSpace>,
}

/// A module's memory as it opens.
fn open(
    alloc: Global,
    module: &Module,
    limits: MemoryLimits,
) -> Result<Versioned<SharedSpace>, NoMemory>
    requires fit { segments_fit «module».now ≡ true }
    requires initial { limits.initial ≡ initial_by (first_memory «module».now) }
    requires order { limits.initial ≤ limits.capacity }
    requires limit { limits.capacity ≤ MOST_PAGES }
    ensures { IfOk result (λ memory. memory_of memory ≡ memory_with limits (opening_values limits «module».now.«data») no_counts) }
{
    let space = SharedSpace::new(alloc, limits, module.data.as_slice())?;
    Versioned::new(alloc, space)
}

impl<'a> Alone<'a> {
    /// Thread 0 of a plan before its first step, and the memory as it opens, in blocks of that size.
    pub fn new(
        alloc: Global,
        valid: &'a Valid,
        plan: &Plan,
        block: Block,
    ) -> Result<Alone<'a>, Fault>
        requires { IsPlanOf valid.now plan.now }
        ensures opening { IfOk result (λ alone. IsOpening valid.now plan.now block (alone_of alone)) }
        ensures sound { IfOk result (λ alone. IsSoundAlone thread_code (alone_of alone).thread (alone_of alone).memory) }
    {
        // A fact for the prover: blocks have at most 4,096 bytes.
        let _small = block.power();
        let module = valid.module();
        let limits = memory_limits(module, Profile::Two(block));
        if limits.capacity < limits.initial {
            return Err(Fault::TooManyPages);
        }
        let memory = open(alloc, module, limits)?;
        let thread = ThreadState::new(alloc, valid, plan, 0, Profile::Two(block))?;
        Ok(Alone { thread, memory })
    }

    /// Runs the thread until no step comes, or it made as many as a thread may make. Where memory is wanted it stops in
    /// between, and may be run on from there.
    pub fn run(&mut self) -> Result<Ended, NoMemory>
        requires { IsSoundAlone thread_code (alone_of self.old).thread (alone_of self.old).memory }
        ensures sound { IsSoundAlone thread_code (alone_of self.new).thread (alone_of self.new).memory }
        ensures goes { GoesTo (alone_of self.old) (alone_of self.new) }
        ensures over { OnOk result (IsOver (alone_of self.new)) }
        ensures steps { IfOk result (λ ended. ended.steps ≡ self.new.thread.thread.steps) }
        ensures outcome { IfOk result (λ ended. ended.outcome ≡ outcome_of (thread_code.next self.new.thread.thread)) }
    {
        let (_, end) = self.thread.run(&mut self.memory, &mut NoLog, u32::MAX);
        end?;
        Ok(Ended {
            steps: self.thread.steps(),
            outcome: outcome_of(self.thread.next()),
        })
    }
}
