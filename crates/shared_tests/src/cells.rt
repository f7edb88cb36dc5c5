//! The history that four threads leave over three cells.

use crate::calls::Answers;
use crate::plain::Plain;
use crate::walk::{Line, lines};
use rw_objects::{Entry, Mode};
use scripted::{Cell, CellOp, Cells};
use shared_core::{History, Opened, Shared, Unkept};
use shared_parts::{Opening, Seat, Tried};
use std::alloc::Global;
use std::marker::Brand;
use std::process::Abort;
use std::sync::Wait;
use std::test::Fail;
use std::thread::Threads;
use wasm_types::NoMemory;
use workers::{Work, run_threads};

/// How many calls each thread makes.
const CALLS: u32 = 10_000;

/// What a thread does at a turn: it reads a cell, or adds a number to it.
fn operation(thread: u32, turn: u32) -> CellOp {
    let cell = match (thread % 4 + turn % 3) % 3 {
        0 => Cell::A,
        1 => Cell::B,
        _ => Cell::C,
    };
    if turn % 4 == 0 {
        CellOp::Read(cell)
    } else {
        CellOp::Add(cell, u64::from(turn) * 4 + u64::from(thread % 4))
    }
}

/// Each thread makes its calls, up to one that is not made.
#[derive(Drop)]
struct CellMix;

impl Work<Cells> for CellMix {
    type State = Answers;

    ghost begins = { λ _ _. Unit {0} };

    ghost leads = { λ _ _ _ _. Unit {0} };

    fn leave_out<J: Opening<Cells, u64, ()>>(
        &self,
        _seat: &Seat<Cells, J>,
        state: Answers,
    ) -> Answers {
        state
    }

    fn work<J: Opening<Cells, u64, ()>, R: Wait>(
        &self,
        rt: &R,
        alloc: Global,
        shared: &Shared<Cells, J>,
        seat: &mut Seat<Cells, J>,
        state: Answers,
    ) -> Answers {
        let thread = seat.thread();
        let mut answers = state;
        for turn in 0..CALLS {
            let operation = operation(thread, turn);
            let Ok(Tried::Done(reply, _)) = shared.access(rt, alloc, seat, operation, &Unkept)
            else {
                return answers;
            };
            answers.add(reply);
        }
        answers
    }
}

/// Runs four threads over cells that open with zeros.
fn run_cells<R: Threads + Wait + Sync>(
    rt: &R,
    alloc: Global,
) -> Result<(History<Cells>, Vec<Answers>), NoMemory> {
    let states = vec![in alloc; Answers::none(); 4]?;
    let opened = Opened::new(Cells { cells: [0; 3] }, 4);
    run_threads::<Cells, Brand, Answers, CellMix, R>(rt, alloc, opened, states, &CellMix)
}

/// Makes a call on plain numbers, and answers what the cell held.
fn make(cells: &mut [u64], operation: CellOp) -> u64 {
    let (cell, by) = match operation {
        CellOp::Read(cell) => (cell, 0),
        CellOp::Add(cell, by) => (cell, by),
    };
    match cells.get_mut(cell.number() as usize) {
        Some(held) => {
            let old = *held;
            *held = old.wrapping_add(by);
            old
        }
        None => 0,
    }
}

/// Whether the entry of a call has its cell alone, and what is kept of it.
fn meets(plain: &mut Plain, operation: CellOp, entry: &Entry) -> bool {
    let (cell, mode) = match operation {
        CellOp::Read(cell) => (cell, Mode::Read),
        CellOp::Add(cell, _) => (cell, Mode::Write),
    };
    match entry.found.as_slice() {
        [one] => plain.meets(*one, cell.number(), mode),
        _ => false,
    }
}

/// Makes the thread's next call. Answers whether it had a next one that found what is kept.
fn go_on(cells: &mut [u64], plain: &mut Plain, lines: &mut [Line], thread: u8) -> bool {
    let Some(line) = lines.get_mut(usize::from(thread)) else {
        return false;
    };
    let turn = line.answers.made;
    let operation = operation(u32::from(thread), turn);
    let Some(entry) = line.entries.get(turn as usize) else {
        return false;
    };
    if !meets(plain, operation, entry) {
        return false;
    }
    line.answers.add(make(cells, operation));
    true
}

/// Goes through a history over the cells: each call finds the versions that those before it leave, each thread was
/// answered what plain numbers answer, and the cells hold these numbers.
fn compare_cells(
    rt: &impl Abort,
    alloc: Global,
    history: &History<Cells>,
    answers: &[Answers],
) -> Result<(), Fail> {
    let mut cells = [0; 3];
    let mut plain = Plain::open(alloc, 0, 3)?;
    let mut lines = lines(alloc, history.entries.as_slice())?;
    for (place, thread) in history.order.iter().enumerate() {
        assert!(rt;
            go_on(
                cells.as_mut_slice(),
                &mut plain,
                lines.as_mut_slice(),
                *thread
            ),
            "call {place} of thread {thread}"
        );
    }
    for (line, answer) in lines.iter().zip(answers) {
        assert_eq!(rt; line.answers, *answer);
    }
    assert_eq!(rt; history.memory.space.cells, cells);
    Ok(())
}

/// The calls of four threads over cells, gone through once more in the order of the history, find what they found,
/// answer what they answered, and lead to the same numbers.
#[test]
fn calls_on_cells_are_one_history(rt: HostRuntime) -> Result<(), Fail> {
    let alloc = rt.alloc();
    let (history, answers) = run_cells(&rt, alloc)?;
    assert_eq!(rt; history.order.len(), 40_000);
    compare_cells(&rt, alloc, &history, answers.as_slice())
}
