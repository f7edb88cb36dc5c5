//! Refused growths, which say nothing of a module or a plan.

use crate::decoding::{EACH_SECTION, EACH_SUMMARY, has_summary};
use crate::plans::{FUNCTIONS, is_plan};
use crate::validation::{NESTING, has_answers};
use binary_decoder::DecodeFault;
use thread_plan::PlanFault;
use validator::ValidFault;
use wasm_types::Value;

// Under `rt try --test --fail-alloc N` the Nth growth is refused. Without it none is.
#[test]
fn a_refused_growth_is_answered(rt: HostRuntime) {
    let found = has_summary(rt.alloc(), EACH_SECTION, EACH_SUMMARY);
    assert!(rt; found == Ok(true) || found == Err(DecodeFault::NoMemory));
    let found = has_answers(rt.alloc(), NESTING, true);
    assert!(rt; found == Ok(true) || found == Err(ValidFault::NoMemory));
    let text = "wreplay plan 1\nthread two 7 -1\nthread i 5";
    let two = [Value::I32(7), Value::I64(u64::MAX)];
    let threads = [(3, two.as_slice()), (0, [Value::I32(5)].as_slice())];
    let found = is_plan(rt.alloc(), FUNCTIONS, text.as_bytes(), &threads);
    assert!(rt; found == Ok(true) || found == Err(PlanFault::NoMemory));
}
