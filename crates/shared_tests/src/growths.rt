//! Want of memory. `rt try --test --fail-alloc N` refuses the Nth growth; without it none is refused, and the test
//! passes, too. What was refused is tried again, and all is then as without the refusal.

use crate::calls::Answers;
use crate::memory::run;
use crate::mixing::Mix;
use crate::walk::compare;
use std::test::Fail;
use wasm_types::NoMemory;

/// Each call that wanted memory is made once, when it is tried again. Where opening or closing wants memory, it says
/// so, and all is done again.
#[test]
fn refused_growths_leave_seat_and_journal(rt: HostRuntime) -> Result<(), Fail> {
    let alloc = rt.alloc();
    let none = Answers::none();
    let mix = Mix {
        calls: 300,
        again: true,
    };
    let (history, answers) = match run(&rt, alloc, vec![in alloc; none; 1]?, &mix) {
        Ok(ran) => ran,
        Err(NoMemory) => run(&rt, alloc, vec![in alloc; none; 1]?, &mix)?,
    };
    assert_eq!(rt; history.order.len(), 300);
    compare(&rt, alloc, &history, answers.as_slice())
}
