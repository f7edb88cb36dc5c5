//! Goes through a history, and makes its calls once more on plain bytes.

use crate::calls::{Answers, action};
use crate::plain::Plain;
use log_pieces::PackedEntries;
use rw_objects::{Entry, ObjectSpace};
use shared_core::History;
use std::alloc::Global;
use std::process::Abort;
use std::test::Fail;
use striped_memory::StripedMemory;

/// The calls of one thread, and what those that were gone through answered.
#[derive(Debug, Drop)]
pub(crate) struct Line {
    pub(crate) entries: Vec<Entry>,
    pub(crate) answers: Answers,
}

/// The calls of each thread, of which none was gone through yet.
pub(crate) fn lines(alloc: Global, all: &[PackedEntries]) -> Result<Vec<Line>, Fail> {
    let mut lines = Vec::new(alloc);
    for entries in all {
        lines.push(Line {
            entries: entries.reader().next_entries(alloc, entries.len())?,
            answers: Answers::none(),
        })?;
    }
    Ok(lines)
}

/// Makes the thread's next call. Answers whether it had a next one that found what is kept.
fn go_on(plain: &mut Plain, lines: &mut [Line], thread: u8) -> bool {
    let Some(line) = lines.get_mut(usize::from(thread)) else {
        return false;
    };
    let turn = line.answers.made;
    let action = action(u32::from(thread), turn);
    let Some(entry) = line.entries.get(turn as usize) else {
        return false;
    };
    if !plain.meets_entry(action, entry) {
        return false;
    }
    line.answers.add(plain.make(action));
    true
}

/// Compares the versions and the bytes to which a history led with those that are kept.
fn compare_memory(
    rt: &impl Abort,
    alloc: Global,
    history: &History<StripedMemory>,
    plain: &Plain,
) -> Result<(), Fail> {
    for (object, count) in (0..u32::MAX).zip(plain.counts.iter()) {
        let at = history.memory.versions.at(object);
        assert_eq!(rt; at, *count, "object {object}");
    }
    let image = history.memory.space.image(alloc)?;
    assert!(rt;
        image.as_slice() == plain.bytes.as_slice(),
        "the bytes differ"
    );
    Ok(())
}

/// Goes through a history: each call finds the versions that those before it leave, each thread was answered what plain
/// bytes answer, and the memory has these bytes and versions.
pub(crate) fn compare(
    rt: &impl Abort,
    alloc: Global,
    history: &History<StripedMemory>,
    answers: &[Answers],
) -> Result<(), Fail> {
    let mut plain = Plain::open(alloc, 65_536, 2049)?;
    let mut lines = lines(alloc, history.entries.as_slice())?;
    for (place, thread) in history.order.iter().enumerate() {
        assert!(rt;
            go_on(&mut plain, lines.as_mut_slice(), *thread),
            "call {place} of thread {thread}"
        );
    }
    assert_eq!(rt; lines.len(), answers.len());
    for (line, answer) in lines.iter().zip(answers) {
        assert_eq!(rt; line.answers, *answer);
        assert_eq!(rt; line.entries.len(), answer.made as usize);
    }
    compare_memory(rt, alloc, history, &plain)
}
