//! Calls and tables. How the threads stand was computed apart from the project.

use crate::trials::stand;
use std::test::Fail;
use wasm_types::Profile;

/// Several rows have a function of an i32, which gives 0 for 0, and else one more than it gives for one less; it calls
/// itself, or through element 0 of the table. The start section is `08 01 01`: function 1. The element section `09 07`
/// has function 0 in element 0; `09 0e` has functions 1 and 2 in elements 1 and 2, and then function 1 in element 2.
const CALLS: &str = "\
# 256 functions stand one above the other.
03 | 00 2000 047f 2000 4101 6b 1000 4101 6a 05 4100 0b 0b | - | 2555 steps, i32 255 | thread f 255
# One more is one too many.
03 | 00 2000 047f 2000 4101 6b 1000 4101 6a 05 4100 0b 0b | - | 1536 steps, trap 8 stack exhausted | thread f 256
# A function that does nothing but call itself.
02 | 00 1000 0b | - | 256 steps, trap 8 stack exhausted
# The start function has as many, and the exported function does not count.
000203 | 00 4107 0b / 00 41fe01 1002 1a 0b / 00 2000 047f 2000 4101 6b 1002 4101 6a 05 4100 0b 0b | - | 2551 steps, i32 7 | thread f | 08 01 01
# One more is one too many.
000203 | 00 4107 0b / 00 41ff01 1002 1a 0b / 00 2000 047f 2000 4101 6b 1002 4101 6a 05 4100 0b 0b | - | 1532 steps, trap 8 stack exhausted | thread f | 08 01 01
# So has the exported function behind it.
000203 | 00 41fe01 1002 0b / 00 01 0b / 00 2000 047f 2000 4101 6b 1002 4101 6a 05 4100 0b 0b | - | 2550 steps, i32 254 | thread f | 08 01 01
000203 | 00 41ff01 1002 0b / 00 01 0b / 00 2000 047f 2000 4101 6b 1002 4101 6a 05 4100 0b 0b | - | 1534 steps, trap 8 stack exhausted | thread f | 08 01 01
# The start function runs first, and the exported function behind it.
0002 | 00 2300 0b / 00 4129 2400 0b | - | 5 steps, i32 41 | thread f | 08 01 01
# A trap of the start function.
0002 | 00 2300 0b / 00 00 0b | - | 1 steps, trap 1 unreachable | thread f | 08 01 01
# Arguments are in order.
0005 | 00 41e400 410a 4103 1001 6a 0b / 00 2000 2001 6b 0b | - | 10 steps, i32 107
0104 | 00 417e 4205 1001 0b / 00 2000 ac 2001 7e 0b | - | 9 steps, i64 -10
# Only the result is left, also from inside blocks; the blocks of the caller stay open.
0003 | 00 41e400 027f 4101 4114 1001 0c00 0b 6a 0b / 01017e 0240 0340 4108 4109 2000 0f 0b 0b 4100 0b | - | 14 steps, i32 120
# A function without a result.
0002 | 00 4103 1001 2300 6a 0b / 00 4104 2400 0b | - | 8 steps, i32 7
# Through the table, also with an equal type.
000300 | 00 4106 4101 110300 0b / 00 2000 4105 6a 0b / 00 4103 0b | - | 8 steps, i32 11 | thread f | 09 0e 02 00 41 01 0b 02 01 02 00 41 02 0b 01 01
000300 | 00 4106 4102 110600 0b / 00 2000 4105 6a 0b / 00 4103 0b | - | 8 steps, i32 11 | thread f | 09 0e 02 00 41 01 0b 02 01 02 00 41 02 0b 01 01
# Past its end.
000300 | 00 4106 4104 110300 0b / 00 2000 4105 6a 0b / 00 4103 0b | - | 3 steps, trap 6 undefined element | thread f | 09 0e 02 00 41 01 0b 02 01 02 00 41 02 0b 01 01
000300 | 00 4106 417f 110300 0b / 00 2000 4105 6a 0b / 00 4103 0b | - | 3 steps, trap 6 undefined element | thread f | 09 0e 02 00 41 01 0b 02 01 02 00 41 02 0b 01 01
# Empty.
000300 | 00 4106 4100 110300 0b / 00 2000 4105 6a 0b / 00 4103 0b | - | 3 steps, trap 7 uninitialized element | thread f | 09 0e 02 00 41 01 0b 02 01 02 00 41 02 0b 01 01
000300 | 00 4106 4103 110300 0b / 00 2000 4105 6a 0b / 00 4103 0b | - | 3 steps, trap 7 uninitialized element | thread f | 09 0e 02 00 41 01 0b 02 01 02 00 41 02 0b 01 01
# Of another type.
000300 | 00 4101 110000 0b / 00 2000 4105 6a 0b / 00 4103 0b | - | 2 steps, trap 5 type mismatch | thread f | 09 0e 02 00 41 01 0b 02 01 02 00 41 02 0b 01 01
# 256 functions, called through the table.
03 | 00 2000 047f 2000 4101 6b 4100 110300 4101 6a 05 4100 0b 0b | - | 2810 steps, i32 255 | thread f 255 | 09 07 01 00 41 00 0b 01 00
03 | 00 2000 047f 2000 4101 6b 4100 110300 4101 6a 05 4100 0b 0b | - | 1792 steps, trap 8 stack exhausted | thread f 256 | 09 07 01 00 41 00 0b 01 00
";

#[test]
fn calls_enter_functions_and_return(rt: HostRuntime) -> Result<(), Fail> {
    stand(&rt, rt.alloc(), &Profile::One, CALLS)
}
