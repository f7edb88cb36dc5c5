//! The history that four threads leave.

use crate::calls::Answers;
use crate::memory::run;
use crate::mixing::Mix;
use crate::walk::compare;
use std::test::Fail;

/// The calls of four threads, gone through once more in the order of the history, find what they found, answer what
/// they answered, and lead to the same bytes and versions.
#[test]
fn calls_of_four_threads_are_one_history(rt: HostRuntime) -> Result<(), Fail> {
    let alloc = rt.alloc();
    let states = vec![in alloc; Answers::none(); 4]?;
    let mix = Mix {
        calls: 10_000,
        again: false,
    };
    let (history, answers) = run(&rt, alloc, states, &mix)?;
    assert_eq!(rt; history.order.len(), 40_000);
    compare(&rt, alloc, &history, answers.as_slice())
}
