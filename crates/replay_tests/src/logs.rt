//! Logs and worlds that tests of replays write down.

ghost use Rattle.std.specs.Prelude.{◌≡◌, ◌≤◌, ⊤, length, map};
ghost use Rattle.replay_tests.specs.Claimed.{claimed, few, scripts_world, scripts_open};

use event_core::{Ended, World};
use log_pieces::{End, Flat};
use replay_gate::{OpenWorld, ReadLog};
use rw_objects::{Entry, Few, Found, Kind};
use scripted::{Cell, CellOp, Cells, Script, ScriptStep, open_scripts};
use std::alloc::Global;
use std::test::Fail;
use wasm_types::{NoMemory, Outcome, Value};

/// What is claimed of two places of each of three threads.
pub(crate) type Accesses = [[Option<Option<Found>>; 2]; 3];

/// A log of three threads. At each of two places nothing is claimed, or a clash, or an access of one object; a thread
/// ends with a sum behind two events, if its end is known.
#[derive(Drop)]
pub(crate) struct ClaimedLog {
    pub(crate) alloc: Global,
    pub(crate) accesses: Accesses,
    pub(crate) sums: [Option<u64>; 3],
}

impl ReadLog for ClaimedLog {
    /// The item that was read last.
    type Reader = Option<Flat<Entry>>;

    ghost log = { λ c. claimed c.accesses c.sums };

    ghost reads = { λ c r. ⊤ };

    ghost holds = { λ r thread. r };

    fn entry(&self, thread: u32, place: u32) -> Option<Flat<Entry>> {
        let Some(row) = self.accesses.get(thread as usize) else {
            return None;
        };
        match row.get(place as usize) {
            None | Some(None) => None,
            Some(Some(None)) => Some(Flat::Clash),
            Some(Some(Some(found))) => Some(Flat::Known(Entry {
                kind: Kind::Access,
                found: Few::one(self.alloc, *found),
            })),
        }
    }

    fn reader(&self) -> Option<Flat<Entry>> {
        None
    }

    fn read(&self, reader: &mut Option<Flat<Entry>>, thread: u32, place: u32) {
        *reader = self.entry(thread, place);
    }

    fn held(reader: &Option<Flat<Entry>>, _thread: u32) -> Option<&Flat<Entry>> {
        reader.as_ref()
    }

    fn end(&self, thread: u32) -> Option<Flat<End>> {
        match self.sums.get(thread as usize) {
            None | Some(None) => None,
            Some(Some(sum)) => Some(Flat::Known(End {
                steps: 2,
                places: 2,
                outcome: Outcome::Done(Some(Value::I64(*sum))),
            })),
        }
    }

    ghost limits = { λ c. few c.accesses c.sums };
}

/// Scripts over cells that hold 0.
#[derive(Drop)]
pub(crate) struct Scripts<'a> {
    pub(crate) scripts: &'a [&'a [ScriptStep]],
}

impl<'a> OpenWorld<Script, Cells> for Scripts<'a> {
    ghost opened = { λ s. scripts_world (map (λ steps. steps.now) s.scripts.now) };

    ghost suits = { λ s. length (map (λ steps. steps.now) s.scripts.now) ≤ 16 };

    fn open(&self, alloc: Global) -> Result<World<Script, Cells>, NoMemory> {
        open_scripts(alloc, self.scripts, [0, 0, 0])
    }

    ghost opening = { λ s few. scripts_open (map (λ steps. steps.now) s.scripts.now) few };
}

/// Thread 0 reads A and adds 2 to B, thread 1 adds 5 to A and reads B, thread 2 reads A and B.
pub(crate) const SCRIPTS: [[ScriptStep; 2]; 3] = [
    [
        ScriptStep::Make(CellOp::Read(Cell::A)),
        ScriptStep::Make(CellOp::Add(Cell::B, 2)),
    ],
    [
        ScriptStep::Make(CellOp::Add(Cell::A, 5)),
        ScriptStep::Make(CellOp::Read(Cell::B)),
    ],
    [
        ScriptStep::Make(CellOp::Read(Cell::A)),
        ScriptStep::Make(CellOp::Read(Cell::B)),
    ],
];

/// The memory of an end of a run and the outcomes of its threads, in words.
pub(crate) fn told_end(alloc: Global, ended: &Ended) -> Result<String, Fail> {
    let mut text = format!(in alloc; "memory")?;
    for byte in ended.memory() {
        write!(text, " {byte}")?;
    }
    for outcome in ended.outcomes() {
        write!(text, "; {outcome}")?;
    }
    Ok(text)
}

/// The same of the end at which cells hold these numbers and threads have these sums.
pub(crate) fn wanted_end(alloc: Global, cells: &[u64], sums: &[u64]) -> Result<String, Fail> {
    let mut text = format!(in alloc; "memory")?;
    for cell in cells {
        for byte in cell.to_le_bytes() {
            write!(text, " {byte}")?;
        }
    }
    for sum in sums {
        write!(text, "; i64 {sum}")?;
    }
    Ok(text)
}
