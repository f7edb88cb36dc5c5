//! Arguments and globals of threads, the numbers of threads, and runs of local steps.

use crate::trials::{Case, SHARED, Way, check, stand};
use std::test::Fail;
use wasm_types::Profile;

const THREADS: &str = "\
# Arguments at the ends of their ranges: the first is stored, and the second given.
04 | 00 4100 2000 360200 2001 0b | stored | Store { access: Whole(I32), address: 0, operand: 2147483648 }; 5 steps, i64 -9223372036854775808 | thread f -2147483648 -9223372036854775808
04 | 00 4100 2000 360200 2001 0b | stored | Store { access: Whole(I32), address: 0, operand: 0 }; 5 steps, i64 0 | thread f 1 1, thread f 0 0
04 | 00 4100 2000 360200 2001 0b | stored | Store { access: Whole(I32), address: 0, operand: 2147483647 }; 5 steps, i64 9223372036854775807 | thread f 2147483647 9223372036854775807
04 | 00 4100 2000 360200 2001 0b | stored | Store { access: Whole(I32), address: 0, operand: 4294967295 }; 5 steps, i64 -1 | thread f 1 1, thread f 4294967295 18446744073709551615
# The argument is added to the mutable global, which begins at 7 for each thread.
03 | 00 2300 2000 6a 2400 2300 0b | - | 6 steps, i32 8 | thread f 1
03 | 00 2300 2000 6a 2400 2300 0b | - | 6 steps, i32 17 | thread f 1, thread f 10
# A wait has the number of its thread.
00 | 00 4104 4100 4200 fe010200 0b | sleeps, i32 2 | Wait { width: I32, thread: 1, address: 4, expected: 0 }; Resume { thread: 1, address: 4 } Some(TimeOut { thread: 1, address: 4 }); 6 steps, i32 2 | thread f, thread f
";

#[test]
fn threads_have_arguments_globals_and_numbers(rt: HostRuntime) -> Result<(), Fail> {
    stand(&rt, rt.alloc(), &Profile::One, THREADS)
}

/// Four local steps, a store, and three local steps.
const STEPPING: &str = "00 4108 4101 4102 6a 360200 4105 1a 0b";

/// A run makes as many local steps as it may, and none from an access on.
#[test]
fn runs_make_the_local_steps_that_come(rt: HostRuntime) -> Result<(), Fail> {
    let case = Case {
        imports: "",
        memory: SHARED,
        functions: "02",
        segments: "",
        bodies: STEPPING,
        lines: "thread f",
    };
    let way = Way::Runs(&[0, 2, 10, 10, 1, u32::MAX, 1]);
    let want = "0 of 0, 2 of 2, 2 of 4, 0 of 4, 1 of 6, 2 of 8, 0 of 8, 8 steps, none";
    check(&rt, rt.alloc(), &case, &Profile::One, way, want)
}
