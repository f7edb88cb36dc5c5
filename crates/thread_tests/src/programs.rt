//! Modules in hex and plans of them, which are recorded and replayed.

use binary_decoder::decode;
use event_core::Ended;
use pick_schedule::schedule;
use replica::Log;
use std::alloc::Global;
use std::marker::Model;
use std::sync::Wait;
use std::test::Fail;
use std::thread::Threads;
use thread_plan::Plan;
use threaded_replay::replay_threads;
use validator::{Valid, validate};
use wasm_record::{Hold, Recording, Timer, record_schedule, record_threads};
use wasm_replay::replay_gathered;
use wasm_types::Block;

/// A shared memory of one page, and a function `w` that adds 1 at address 0 twice and answers the second old value; two
/// threads of it.
pub(crate) const COUNTER: (&str, &str) = (
    "0061736d010000000105016000017f030201000504010301010705010177\
    00000a1501130041004101fe1e02001a41004101fe1e02000b",
    "wreplay plan 1\nthread w\nthread w\n",
);

/// A function `f0` that waits at address 0 for 0, at most 1,000 nanoseconds, and a function `f1` that wakes one there;
/// a thread of each.
pub(crate) const LIMITED: (&str, &str) = (
    "0061736d010000000105016000017f0303020000050401030101070b02026630000002663100010a1a02\
    0d004100410042e807fe0102000b0a0041004101fe0002000b",
    "wreplay plan 1\nthread f0\nthread f1\n",
);

/// The same, where `f0` waits without a limit of time.
pub(crate) const UNLIMITED: (&str, &str) = (
    "0061736d010000000105016000017f0303020000050401030101070b02026630000002663100010a1902\
    0c0041004100427ffe0102000b0a0041004101fe0002000b",
    "wreplay plan 1\nthread f0\nthread f1\n",
);

/// `f0`, `f1` and `f2` wait at address 0, `f3` at address 4; `f4` wakes two at address 0 and then all, and answers ten
/// times the first number and the second; a thread of each.
pub(crate) const FIVE: (&str, &str) = (
    "0061736d010000000105016000017f0306050000000000050401030101071a050266300000026631000102663200\
    02026633000302663400040a4c050c0041004100427ffe0102000b0c0041004100427ffe0102000b0c0041004100\
    427ffe0102000b0c0041044100427ffe0102000b160041004102fe000200410a6c4100417ffe0002006a0b",
    "wreplay plan 1\nthread f0\nthread f1\nthread f2\nthread f3\nthread f4\n",
);

/// A function `r` that loads what stands at address 0; two threads of it.
pub(crate) const READERS: (&str, &str) = (
    "0061736d010000000105016000017f03020100050401030101070501017200000a0a01080041\
    00fe1002000b",
    "wreplay plan 1\nthread r\nthread r\n",
);

/// `a` waits at address 0 without a limit of time, and then at 8, at most 1 nanosecond; `b` wakes one at address 0
/// until one was woken; `c` ends at once; a thread of each.
pub(crate) const LEAVING: (&str, &str) = (
    "0061736d010000000108026000017f60000003040300010105040103010107\
    0d03016100000162000101630002\
    0a2d03170041004100427ffe0102001a410841004201fe0102000b\
    1000034041004101fe000200450d000b0b02000b",
    "wreplay plan 1\nthread a\nthread b\nthread c\n",
);

/// The valid module of these digits.
pub(crate) fn valid(alloc: Global, module: &str) -> Result<Valid, Fail> {
    let bytes = hex::decode(alloc, module)?;
    Ok(validate(alloc, decode(alloc, &bytes)?)?)
}

/// A module and a plan of it. Contracts see the module.
#[derive(Drop)]
pub(crate) struct Program {
    valid: Valid,
    plan: Plan,
}

impl Model for Program {
    ghost use Rattle.wasm_types.specs.declared.modules.Module.{Module};
    ghost use Rattle.thread_plan.specs.Plans.{IsPlanOf};

    ghost Value = { Module };

    ghost view = { λ p. p.valid };

    ghost invariant = { λ p. IsPlanOf p.valid p.plan };
}

impl Program {
    /// The module of these digits, and the plan of that text.
    pub(crate) fn read(alloc: Global, (module, plan): (&str, &str)) -> Result<Program, Fail> {
        let valid = valid(alloc, module)?;
        let plan = Plan::read(alloc, plan.as_bytes(), &valid)?;
        Ok(Program { valid, plan })
    }

    /// Records a run by threads of at most so many steps, in blocks of the least size.
    pub(crate) fn record<T: Timer + Sync, H: Hold + Sync, R: Threads + Wait + Sync>(
        &self,
        rt: &R,
        alloc: Global,
        steps: u32,
        timer: &T,
        hold: &H,
    ) -> Result<Recording, Fail> {
        let block = Block::least();
        Ok(record_threads(
            rt,
            alloc,
            &self.valid,
            &self.plan,
            0,
            block,
            steps,
            timer,
            hold,
        )?)
    }

    /// Replays a log by threads.
    pub(crate) fn replay_by_threads<H: Hold + Sync, R: Threads + Wait + Sync>(
        &self,
        rt: &R,
        alloc: Global,
        log: &Log,
        hold: &H,
    ) -> Result<Ended, Fail> {
        Ok(replay_threads(rt, alloc, &self.valid, &self.plan, log, hold)?)
    }

    /// Records the run with this number by a schedule.
    pub(crate) fn record_schedule(
        &self,
        alloc: Global,
        run: u64,
        picks: &str,
    ) -> Result<Recording, Fail> {
        let picks = schedule(alloc, picks.as_bytes())?;
        Ok(record_schedule(
            alloc,
            &self.valid,
            &self.plan,
            run,
            Block::least(),
            &picks,
            1000,
        )?)
    }

    /// Replays a log in an order.
    pub(crate) fn replay_in_order(
        &self,
        alloc: Global,
        log: &Log,
        order: &[u32],
    ) -> Result<Ended, Fail> {
        Ok(replay_gathered(alloc, &self.valid, &self.plan, log, order)?)
    }
}
