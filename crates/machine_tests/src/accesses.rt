//! Accesses: what they ask for, by the tables of the instructions in WebAssembly Core 1.0 and the threads
//! proposal, and how the threads stand behind the replies. The operand of stores, of
//! read-modify-writes and of compare-exchanges is -1.

use crate::trials::stand;
use std::test::Fail;
use wasm_types::{Block, Profile};

const ACCESSES: &str = "\
# Loads.
00 | 00 4108 28 00 10 0b | i32 4294967173 | Load { load: Whole(I32), address: 24 }; 3 steps, i32 -123
01 | 00 4108 29 00 10 0b | i64 5000000000 | Load { load: Whole(I64), address: 24 }; 3 steps, i64 5000000000
00 | 00 4108 2c 00 10 0b | i32 4294967173 | Load { load: Narrow(I32Of8, Signed), address: 24 }; 3 steps, i32 -123
00 | 00 4108 2d 00 10 0b | i32 4294967173 | Load { load: Narrow(I32Of8, Unsigned), address: 24 }; 3 steps, i32 -123
00 | 00 4108 2e 00 10 0b | i32 4294967173 | Load { load: Narrow(I32Of16, Signed), address: 24 }; 3 steps, i32 -123
00 | 00 4108 2f 00 10 0b | i32 4294967173 | Load { load: Narrow(I32Of16, Unsigned), address: 24 }; 3 steps, i32 -123
01 | 00 4108 30 00 10 0b | i64 5000000000 | Load { load: Narrow(I64Of8, Signed), address: 24 }; 3 steps, i64 5000000000
01 | 00 4108 31 00 10 0b | i64 5000000000 | Load { load: Narrow(I64Of8, Unsigned), address: 24 }; 3 steps, i64 5000000000
01 | 00 4108 32 00 10 0b | i64 5000000000 | Load { load: Narrow(I64Of16, Signed), address: 24 }; 3 steps, i64 5000000000
01 | 00 4108 33 00 10 0b | i64 5000000000 | Load { load: Narrow(I64Of16, Unsigned), address: 24 }; 3 steps, i64 5000000000
01 | 00 4108 34 00 10 0b | i64 5000000000 | Load { load: Narrow(I64Of32, Signed), address: 24 }; 3 steps, i64 5000000000
01 | 00 4108 35 00 10 0b | i64 5000000000 | Load { load: Narrow(I64Of32, Unsigned), address: 24 }; 3 steps, i64 5000000000
00 | 00 4108 fe 10 02 10 0b | i32 4294967173 | Load { load: Whole(I32), address: 24 }; 3 steps, i32 -123
01 | 00 4108 fe 11 03 10 0b | i64 5000000000 | Load { load: Whole(I64), address: 24 }; 3 steps, i64 5000000000
00 | 00 4108 fe 12 00 10 0b | i32 4294967173 | Load { load: Narrow(I32Of8, Unsigned), address: 24 }; 3 steps, i32 -123
00 | 00 4108 fe 13 01 10 0b | i32 4294967173 | Load { load: Narrow(I32Of16, Unsigned), address: 24 }; 3 steps, i32 -123
01 | 00 4108 fe 14 00 10 0b | i64 5000000000 | Load { load: Narrow(I64Of8, Unsigned), address: 24 }; 3 steps, i64 5000000000
01 | 00 4108 fe 15 01 10 0b | i64 5000000000 | Load { load: Narrow(I64Of16, Unsigned), address: 24 }; 3 steps, i64 5000000000
01 | 00 4108 fe 16 02 10 0b | i64 5000000000 | Load { load: Narrow(I64Of32, Unsigned), address: 24 }; 3 steps, i64 5000000000
# Stores.
02 | 00 4108 417f 36 00 10 0b | stored | Store { access: Whole(I32), address: 24, operand: 4294967295 }; 4 steps, none
02 | 00 4108 427f 37 00 10 0b | stored | Store { access: Whole(I64), address: 24, operand: 18446744073709551615 }; 4 steps, none
02 | 00 4108 417f 3a 00 10 0b | stored | Store { access: Narrow(I32Of8), address: 24, operand: 4294967295 }; 4 steps, none
02 | 00 4108 417f 3b 00 10 0b | stored | Store { access: Narrow(I32Of16), address: 24, operand: 4294967295 }; 4 steps, none
02 | 00 4108 427f 3c 00 10 0b | stored | Store { access: Narrow(I64Of8), address: 24, operand: 18446744073709551615 }; 4 steps, none
02 | 00 4108 427f 3d 00 10 0b | stored | Store { access: Narrow(I64Of16), address: 24, operand: 18446744073709551615 }; 4 steps, none
02 | 00 4108 427f 3e 00 10 0b | stored | Store { access: Narrow(I64Of32), address: 24, operand: 18446744073709551615 }; 4 steps, none
02 | 00 4108 417f fe 17 02 10 0b | stored | Store { access: Whole(I32), address: 24, operand: 4294967295 }; 4 steps, none
02 | 00 4108 427f fe 18 03 10 0b | stored | Store { access: Whole(I64), address: 24, operand: 18446744073709551615 }; 4 steps, none
02 | 00 4108 417f fe 19 00 10 0b | stored | Store { access: Narrow(I32Of8), address: 24, operand: 4294967295 }; 4 steps, none
02 | 00 4108 417f fe 1a 01 10 0b | stored | Store { access: Narrow(I32Of16), address: 24, operand: 4294967295 }; 4 steps, none
02 | 00 4108 427f fe 1b 00 10 0b | stored | Store { access: Narrow(I64Of8), address: 24, operand: 18446744073709551615 }; 4 steps, none
02 | 00 4108 427f fe 1c 01 10 0b | stored | Store { access: Narrow(I64Of16), address: 24, operand: 18446744073709551615 }; 4 steps, none
02 | 00 4108 427f fe 1d 02 10 0b | stored | Store { access: Narrow(I64Of32), address: 24, operand: 18446744073709551615 }; 4 steps, none
# Read-modify-writes.
00 | 00 4108 417f fe 1e 02 10 0b | i32 4294967173 | Rmw { op: Add, access: Whole(I32), address: 24, operand: 4294967295 }; 4 steps, i32 -123
01 | 00 4108 427f fe 1f 03 10 0b | i64 5000000000 | Rmw { op: Add, access: Whole(I64), address: 24, operand: 18446744073709551615 }; 4 steps, i64 5000000000
00 | 00 4108 417f fe 20 00 10 0b | i32 4294967173 | Rmw { op: Add, access: Narrow(I32Of8), address: 24, operand: 4294967295 }; 4 steps, i32 -123
00 | 00 4108 417f fe 21 01 10 0b | i32 4294967173 | Rmw { op: Add, access: Narrow(I32Of16), address: 24, operand: 4294967295 }; 4 steps, i32 -123
01 | 00 4108 427f fe 22 00 10 0b | i64 5000000000 | Rmw { op: Add, access: Narrow(I64Of8), address: 24, operand: 18446744073709551615 }; 4 steps, i64 5000000000
01 | 00 4108 427f fe 23 01 10 0b | i64 5000000000 | Rmw { op: Add, access: Narrow(I64Of16), address: 24, operand: 18446744073709551615 }; 4 steps, i64 5000000000
01 | 00 4108 427f fe 24 02 10 0b | i64 5000000000 | Rmw { op: Add, access: Narrow(I64Of32), address: 24, operand: 18446744073709551615 }; 4 steps, i64 5000000000
00 | 00 4108 417f fe 25 02 10 0b | i32 4294967173 | Rmw { op: Subtract, access: Whole(I32), address: 24, operand: 4294967295 }; 4 steps, i32 -123
01 | 00 4108 427f fe 26 03 10 0b | i64 5000000000 | Rmw { op: Subtract, access: Whole(I64), address: 24, operand: 18446744073709551615 }; 4 steps, i64 5000000000
00 | 00 4108 417f fe 27 00 10 0b | i32 4294967173 | Rmw { op: Subtract, access: Narrow(I32Of8), address: 24, operand: 4294967295 }; 4 steps, i32 -123
00 | 00 4108 417f fe 28 01 10 0b | i32 4294967173 | Rmw { op: Subtract, access: Narrow(I32Of16), address: 24, operand: 4294967295 }; 4 steps, i32 -123
01 | 00 4108 427f fe 29 00 10 0b | i64 5000000000 | Rmw { op: Subtract, access: Narrow(I64Of8), address: 24, operand: 18446744073709551615 }; 4 steps, i64 5000000000
01 | 00 4108 427f fe 2a 01 10 0b | i64 5000000000 | Rmw { op: Subtract, access: Narrow(I64Of16), address: 24, operand: 18446744073709551615 }; 4 steps, i64 5000000000
01 | 00 4108 427f fe 2b 02 10 0b | i64 5000000000 | Rmw { op: Subtract, access: Narrow(I64Of32), address: 24, operand: 18446744073709551615 }; 4 steps, i64 5000000000
00 | 00 4108 417f fe 2c 02 10 0b | i32 4294967173 | Rmw { op: And, access: Whole(I32), address: 24, operand: 4294967295 }; 4 steps, i32 -123
01 | 00 4108 427f fe 2d 03 10 0b | i64 5000000000 | Rmw { op: And, access: Whole(I64), address: 24, operand: 18446744073709551615 }; 4 steps, i64 5000000000
00 | 00 4108 417f fe 2e 00 10 0b | i32 4294967173 | Rmw { op: And, access: Narrow(I32Of8), address: 24, operand: 4294967295 }; 4 steps, i32 -123
00 | 00 4108 417f fe 2f 01 10 0b | i32 4294967173 | Rmw { op: And, access: Narrow(I32Of16), address: 24, operand: 4294967295 }; 4 steps, i32 -123
01 | 00 4108 427f fe 30 00 10 0b | i64 5000000000 | Rmw { op: And, access: Narrow(I64Of8), address: 24, operand: 18446744073709551615 }; 4 steps, i64 5000000000
01 | 00 4108 427f fe 31 01 10 0b | i64 5000000000 | Rmw { op: And, access: Narrow(I64Of16), address: 24, operand: 18446744073709551615 }; 4 steps, i64 5000000000
01 | 00 4108 427f fe 32 02 10 0b | i64 5000000000 | Rmw { op: And, access: Narrow(I64Of32), address: 24, operand: 18446744073709551615 }; 4 steps, i64 5000000000
00 | 00 4108 417f fe 33 02 10 0b | i32 4294967173 | Rmw { op: Or, access: Whole(I32), address: 24, operand: 4294967295 }; 4 steps, i32 -123
01 | 00 4108 427f fe 34 03 10 0b | i64 5000000000 | Rmw { op: Or, access: Whole(I64), address: 24, operand: 18446744073709551615 }; 4 steps, i64 5000000000
00 | 00 4108 417f fe 35 00 10 0b | i32 4294967173 | Rmw { op: Or, access: Narrow(I32Of8), address: 24, operand: 4294967295 }; 4 steps, i32 -123
00 | 00 4108 417f fe 36 01 10 0b | i32 4294967173 | Rmw { op: Or, access: Narrow(I32Of16), address: 24, operand: 4294967295 }; 4 steps, i32 -123
01 | 00 4108 427f fe 37 00 10 0b | i64 5000000000 | Rmw { op: Or, access: Narrow(I64Of8), address: 24, operand: 18446744073709551615 }; 4 steps, i64 5000000000
01 | 00 4108 427f fe 38 01 10 0b | i64 5000000000 | Rmw { op: Or, access: Narrow(I64Of16), address: 24, operand: 18446744073709551615 }; 4 steps, i64 5000000000
01 | 00 4108 427f fe 39 02 10 0b | i64 5000000000 | Rmw { op: Or, access: Narrow(I64Of32), address: 24, operand: 18446744073709551615 }; 4 steps, i64 5000000000
00 | 00 4108 417f fe 3a 02 10 0b | i32 4294967173 | Rmw { op: Xor, access: Whole(I32), address: 24, operand: 4294967295 }; 4 steps, i32 -123
01 | 00 4108 427f fe 3b 03 10 0b | i64 5000000000 | Rmw { op: Xor, access: Whole(I64), address: 24, operand: 18446744073709551615 }; 4 steps, i64 5000000000
00 | 00 4108 417f fe 3c 00 10 0b | i32 4294967173 | Rmw { op: Xor, access: Narrow(I32Of8), address: 24, operand: 4294967295 }; 4 steps, i32 -123
00 | 00 4108 417f fe 3d 01 10 0b | i32 4294967173 | Rmw { op: Xor, access: Narrow(I32Of16), address: 24, operand: 4294967295 }; 4 steps, i32 -123
01 | 00 4108 427f fe 3e 00 10 0b | i64 5000000000 | Rmw { op: Xor, access: Narrow(I64Of8), address: 24, operand: 18446744073709551615 }; 4 steps, i64 5000000000
01 | 00 4108 427f fe 3f 01 10 0b | i64 5000000000 | Rmw { op: Xor, access: Narrow(I64Of16), address: 24, operand: 18446744073709551615 }; 4 steps, i64 5000000000
01 | 00 4108 427f fe 40 02 10 0b | i64 5000000000 | Rmw { op: Xor, access: Narrow(I64Of32), address: 24, operand: 18446744073709551615 }; 4 steps, i64 5000000000
00 | 00 4108 417f fe 41 02 10 0b | i32 4294967173 | Rmw { op: Exchange, access: Whole(I32), address: 24, operand: 4294967295 }; 4 steps, i32 -123
01 | 00 4108 427f fe 42 03 10 0b | i64 5000000000 | Rmw { op: Exchange, access: Whole(I64), address: 24, operand: 18446744073709551615 }; 4 steps, i64 5000000000
00 | 00 4108 417f fe 43 00 10 0b | i32 4294967173 | Rmw { op: Exchange, access: Narrow(I32Of8), address: 24, operand: 4294967295 }; 4 steps, i32 -123
00 | 00 4108 417f fe 44 01 10 0b | i32 4294967173 | Rmw { op: Exchange, access: Narrow(I32Of16), address: 24, operand: 4294967295 }; 4 steps, i32 -123
01 | 00 4108 427f fe 45 00 10 0b | i64 5000000000 | Rmw { op: Exchange, access: Narrow(I64Of8), address: 24, operand: 18446744073709551615 }; 4 steps, i64 5000000000
01 | 00 4108 427f fe 46 01 10 0b | i64 5000000000 | Rmw { op: Exchange, access: Narrow(I64Of16), address: 24, operand: 18446744073709551615 }; 4 steps, i64 5000000000
01 | 00 4108 427f fe 47 02 10 0b | i64 5000000000 | Rmw { op: Exchange, access: Narrow(I64Of32), address: 24, operand: 18446744073709551615 }; 4 steps, i64 5000000000
# Compare-exchanges, of which the replacement is 5.
00 | 00 4108 417f 4105 fe 48 02 10 0b | i32 4294967173 | CompareExchange { access: Whole(I32), address: 24, expected: 4294967295, replacement: 5 }; 5 steps, i32 -123
01 | 00 4108 427f 4205 fe 49 03 10 0b | i64 5000000000 | CompareExchange { access: Whole(I64), address: 24, expected: 18446744073709551615, replacement: 5 }; 5 steps, i64 5000000000
00 | 00 4108 417f 4105 fe 4a 00 10 0b | i32 4294967173 | CompareExchange { access: Narrow(I32Of8), address: 24, expected: 4294967295, replacement: 5 }; 5 steps, i32 -123
00 | 00 4108 417f 4105 fe 4b 01 10 0b | i32 4294967173 | CompareExchange { access: Narrow(I32Of16), address: 24, expected: 4294967295, replacement: 5 }; 5 steps, i32 -123
01 | 00 4108 427f 4205 fe 4c 00 10 0b | i64 5000000000 | CompareExchange { access: Narrow(I64Of8), address: 24, expected: 18446744073709551615, replacement: 5 }; 5 steps, i64 5000000000
01 | 00 4108 427f 4205 fe 4d 01 10 0b | i64 5000000000 | CompareExchange { access: Narrow(I64Of16), address: 24, expected: 18446744073709551615, replacement: 5 }; 5 steps, i64 5000000000
01 | 00 4108 427f 4205 fe 4e 02 10 0b | i64 5000000000 | CompareExchange { access: Narrow(I64Of32), address: 24, expected: 18446744073709551615, replacement: 5 }; 5 steps, i64 5000000000
# The length, and growth.
00 | 00 3f00 0b | i32 3 | Size; 2 steps, i32 3
00 | 00 4105 4000 0b | i32 4294967295 | Grow { pages: 5 }; 3 steps, i32 -1
# Waiters are woken, also of a memory that is not shared.
00 | 00 4108 417f fe000204 0b | i32 2 | Notify { address: 12, count: 4294967295 }; 4 steps, i32 2
00 | 00 4108 4107 fe000200 0b | i32 0 | Notify { address: 8, count: 7 }; 4 steps, i32 0 | thread f |  | 05 04 01 01 01 02
# A fence asks for nothing.
02 | 00 fe0300 0b | - | 2 steps, none
# One access after another.
02 | 00 4108 4101 360200 4108 4102 3a0000 0b | stored, stored | Store { access: Whole(I32), address: 8, operand: 1 }; Store { access: Narrow(I32Of8), address: 8, operand: 2 }; 7 steps, none
# A trap is a reply, too.
00 | 00 4108 280200 0b | trap | Load { load: Whole(I32), address: 8 }; 2 steps, trap 4 out of bounds
";

/// Loads of the last bytes of a memory, and of the bytes one further out.
const CAPACITIES: &str = "\
# The declared maximum.
03 | 00 2000 280000 0b | i32 9 | Load { load: Whole(I32), address: 131068 }; 3 steps, i32 9 | thread f 131068 |  | 05 04 01 03 01 02
03 | 00 2000 280000 0b | i32 9 | 2 steps, trap 4 out of bounds | thread f 131069 |  | 05 04 01 03 01 02
03 | 00 2000 2d0000 0b | i32 9 | Load { load: Narrow(I32Of8, Unsigned), address: 131071 }; 3 steps, i32 9 | thread f 131071 |  | 05 04 01 03 01 02
03 | 00 2000 2d0000 0b | i32 9 | 2 steps, trap 4 out of bounds | thread f 131072 |  | 05 04 01 03 01 02
03 | 00 2000 280000 0b | i32 9 | Load { load: Whole(I32), address: 1048572 }; 3 steps, i32 9 | thread f 1048572 |  | 05 04 01 03 01 10
03 | 00 2000 280000 0b | i32 9 | 2 steps, trap 4 out of bounds | thread f 1048573 |  | 05 04 01 03 01 10
# At most 16 pages in profile 1, also where none is declared.
03 | 00 2000 280000 0b | i32 9 | Load { load: Whole(I32), address: 1048572 }; 3 steps, i32 9 | thread f 1048572 |  | 05 04 01 03 01 11
03 | 00 2000 280000 0b | i32 9 | 2 steps, trap 4 out of bounds | thread f 1048573 |  | 05 04 01 03 01 11
03 | 00 2000 280000 0b | i32 9 | Load { load: Whole(I32), address: 1048572 }; 3 steps, i32 9 | thread f 1048572 |  | 05 03 01 00 01
03 | 00 2000 280000 0b | i32 9 | 2 steps, trap 4 out of bounds | thread f 1048573 |  | 05 03 01 00 01
# Of an imported memory.
03 | 00 2000 280000 0b | i32 9 | Load { load: Whole(I32), address: 196604 }; 3 steps, i32 9 | thread f 196604 |  |  | 02 09 01 01 61 01 62 02 01 01 03
03 | 00 2000 280000 0b | i32 9 | 2 steps, trap 4 out of bounds | thread f 196605 |  |  | 02 09 01 01 61 01 62 02 01 01 03
";

/// The same in profile 2.
const CAPACITIES_2: &str = "\
# At most 256 pages in profile 2.
03 | 00 2000 280000 0b | i32 9 | Load { load: Whole(I32), address: 131068 }; 3 steps, i32 9 | thread f 131068 |  | 05 04 01 03 01 02
03 | 00 2000 280000 0b | i32 9 | 2 steps, trap 4 out of bounds | thread f 131069 |  | 05 04 01 03 01 02
03 | 00 2000 280000 0b | i32 9 | Load { load: Whole(I32), address: 1114108 }; 3 steps, i32 9 | thread f 1114108 |  | 05 04 01 03 01 11
03 | 00 2000 280000 0b | i32 9 | 2 steps, trap 4 out of bounds | thread f 1114109 |  | 05 04 01 03 01 11
03 | 00 2000 280000 0b | i32 9 | Load { load: Whole(I32), address: 16777212 }; 3 steps, i32 9 | thread f 16777212 |  | 05 05 01 03 01 80 02
03 | 00 2000 280000 0b | i32 9 | 2 steps, trap 4 out of bounds | thread f 16777213 |  | 05 05 01 03 01 80 02
03 | 00 2000 280000 0b | i32 9 | Load { load: Whole(I32), address: 16777212 }; 3 steps, i32 9 | thread f 16777212 |  | 05 05 01 03 01 81 02
03 | 00 2000 280000 0b | i32 9 | 2 steps, trap 4 out of bounds | thread f 16777213 |  | 05 05 01 03 01 81 02
03 | 00 2000 280000 0b | i32 9 | Load { load: Whole(I32), address: 16777212 }; 3 steps, i32 9 | thread f 16777212 |  | 05 03 01 00 01
03 | 00 2000 280000 0b | i32 9 | 2 steps, trap 4 out of bounds | thread f 16777213 |  | 05 03 01 00 01
# Of an imported memory.
03 | 00 2000 280000 0b | i32 9 | Load { load: Whole(I32), address: 16777212 }; 3 steps, i32 9 | thread f 16777212 |  |  | 02 08 01 01 61 01 62 02 00 01
03 | 00 2000 280000 0b | i32 9 | 2 steps, trap 4 out of bounds | thread f 16777213 |  |  | 02 08 01 01 61 01 62 02 00 01
";

#[test]
fn each_access_asks_for_its_operation(rt: HostRuntime) -> Result<(), Fail> {
    stand(&rt, rt.alloc(), &Profile::One, ACCESSES)?;
    stand(&rt, rt.alloc(), &Profile::One, CAPACITIES)?;
    stand(&rt, rt.alloc(), &Profile::Two(Block::least()), CAPACITIES_2)
}
