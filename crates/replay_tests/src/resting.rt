//! Three threads that rest, for a hundred steps and more, before, between or behind their two accesses.

ghost use Rattle.std.specs.Prelude.{⊤};
ghost use Rattle.replay_tests.specs.Resting.{resting, few_rested};

use crate::logs::ClaimedLog;
use log_pieces::{End, Flat};
use replay_gate::ReadLog;
use rw_objects::Entry;
use scripted::{Cell, CellOp, ScriptStep};
use std::alloc::Global;
use wasm_types::NoMemory;

/// A log of three threads that rest, each of which ends behind 202 steps.
#[derive(Drop)]
pub(crate) struct RestingLog {
    pub(crate) claimed: ClaimedLog,
}

impl ReadLog for RestingLog {
    /// The item that was read last.
    type Reader = Option<Flat<Entry>>;

    ghost log = { λ c. resting c.claimed.accesses c.claimed.sums };

    ghost reads = { λ c r. ⊤ };

    ghost holds = { λ r thread. r };

    fn entry(&self, thread: u32, place: u32) -> Option<Flat<Entry>> {
        self.claimed.entry(thread, place)
    }

    fn reader(&self) -> Option<Flat<Entry>> {
        None
    }

    fn read(&self, reader: &mut Option<Flat<Entry>>, thread: u32, place: u32) {
        *reader = self.entry(thread, place);
    }

    fn held(reader: &Option<Flat<Entry>>, _thread: u32) -> Option<&Flat<Entry>> {
        reader.as_ref()
    }

    fn end(&self, thread: u32) -> Option<Flat<End>> {
        match self.claimed.end(thread) {
            None => None,
            Some(Flat::Clash) => Some(Flat::Clash),
            Some(Flat::Known(end)) => Some(Flat::Known(End { steps: 202, ..end })),
        }
    }

    ghost limits = { λ c. few_rested c.claimed.accesses c.claimed.sums };
}

/// Adds so many rests to a script.
fn rest(script: &mut Vec<ScriptStep>, times: u32) -> Result<(), NoMemory> {
    for _ in 0..times {
        script.push(ScriptStep::Rest)?;
    }
    Ok(())
}

/// A script of two operations, and so many rests before, between and behind them.
fn script(alloc: Global, ops: [CellOp; 2], rests: [u32; 3]) -> Result<Vec<ScriptStep>, NoMemory> {
    let [first, second] = ops;
    let [before, between, behind] = rests;
    let mut script = Vec::new(alloc);
    rest(&mut script, before)?;
    script.push(ScriptStep::Make(first))?;
    rest(&mut script, between)?;
    script.push(ScriptStep::Make(second))?;
    rest(&mut script, behind)?;
    Ok(script)
}

/// The operations of the other tests' threads, by threads that rest.
pub(crate) fn scripts(alloc: Global) -> Result<[Vec<ScriptStep>; 3], NoMemory> {
    let reads_and_adds = [CellOp::Read(Cell::A), CellOp::Add(Cell::B, 2)];
    let adds_and_reads = [CellOp::Add(Cell::A, 5), CellOp::Read(Cell::B)];
    let reads = [CellOp::Read(Cell::A), CellOp::Read(Cell::B)];
    let first = script(alloc, reads_and_adds, [0, 100, 100])?;
    let second = script(alloc, adds_and_reads, [100, 100, 0])?;
    let third = script(alloc, reads, [150, 0, 50])?;
    Ok([first, second, third])
}
