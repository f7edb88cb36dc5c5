//! Traps before accesses, and waits. How the threads stand was computed apart from the project.

use crate::trials::stand;
use std::test::Fail;
use wasm_types::Profile;

const TRAPS: &str = "\
# An address does not wrap.
00 | 00 417f 2d00ffffffff0f 0b | - | 2 steps, trap 4 out of bounds
00 | 00 417f 2d0001 0b | - | 2 steps, trap 4 out of bounds
# The sum of base and offset is aligned, or not.
00 | 00 4101 fe100203 0b | i32 9 | Load { load: Whole(I32), address: 4 }; 3 steps, i32 9
00 | 00 4104 fe100202 0b | - | 2 steps, trap 9 unaligned atomic
# By the width of the access.
01 | 00 4104 fe110300 0b | - | 2 steps, trap 9 unaligned atomic
00 | 00 4102 fe130100 0b | i32 9 | Load { load: Narrow(I32Of16, Unsigned), address: 2 }; 3 steps, i32 9
# Not aligned goes before out of bounds.
00 | 00 41828008 fe100200 0b | - | 2 steps, trap 9 unaligned atomic
00 | 00 41808008 fe100200 0b | - | 2 steps, trap 4 out of bounds
00 | 00 417f fe100201 0b | - | 2 steps, trap 4 out of bounds
# Each kind of atomic access.
02 | 00 4101 4100 fe170200 0b | - | 3 steps, trap 9 unaligned atomic
00 | 00 4101 4100 fe1e0200 0b | - | 3 steps, trap 9 unaligned atomic
00 | 00 4101 4100 4100 fe480200 0b | - | 4 steps, trap 9 unaligned atomic
00 | 00 4102 4100 fe000200 0b | - | 3 steps, trap 9 unaligned atomic
00 | 00 41808008 4100 fe000200 0b | - | 3 steps, trap 4 out of bounds
00 | 00 4104 4200 4200 fe020300 0b | - | 4 steps, trap 9 unaligned atomic
00 | 00 41828008 4100 4200 fe010200 0b | - | 4 steps, trap 9 unaligned atomic
00 | 00 41808008 4100 4200 fe010200 0b | - | 4 steps, trap 4 out of bounds
# A wait on a memory that is not shared goes before both.
00 | 00 41828008 4100 4200 fe010200 0b | - | 4 steps, trap 10 memory not shared | thread f |  | 05 04 01 01 01 02
00 | 00 4100 4100 4200 fe010200 0b | - | 4 steps, trap 10 memory not shared | thread f |  | 05 04 01 01 01 02
# Other atomic accesses are made of such a memory.
00 | 00 4100 4100 fe1e0200 0b | i32 9 | Rmw { op: Add, access: Whole(I32), address: 0, operand: 0 }; 4 steps, i32 9 | thread f |  | 05 04 01 01 01 02
";

const WAITS: &str = "\
# Answered at once.
00 | 00 4108 417e 427f fe010204 410a 6a 0b | i32 1 | Wait { width: I32, thread: 0, address: 12, expected: 4294967294 }; 7 steps, i32 11
# Asleep without an end, and woken.
00 | 00 4108 417e 427f fe010204 410a 6a 0b | sleeps, i32 0 | Wait { width: I32, thread: 0, address: 12, expected: 4294967294 }; Resume { thread: 0, address: 12 } None; 8 steps, i32 10
00 | 00 4108 417e 428080808080808080807f fe010204 410a 6a 0b | sleeps, i32 0 | Wait { width: I32, thread: 0, address: 12, expected: 4294967294 }; Resume { thread: 0, address: 12 } None; 8 steps, i32 10
# Asleep with an end, and timed out, or woken.
00 | 00 4108 417e 4200 fe010204 410a 6a 0b | sleeps, i32 2 | Wait { width: I32, thread: 0, address: 12, expected: 4294967294 }; Resume { thread: 0, address: 12 } Some(TimeOut { thread: 0, address: 12 }); 8 steps, i32 12
00 | 00 4108 417e 42ffffffffffffffffff00 fe010204 410a 6a 0b | sleeps, i32 0 | Wait { width: I32, thread: 0, address: 12, expected: 4294967294 }; Resume { thread: 0, address: 12 } Some(TimeOut { thread: 0, address: 12 }); 8 steps, i32 10
00 | 00 4108 427e 4205 fe020300 0b | sleeps, i32 2 | Wait { width: I64, thread: 0, address: 8, expected: 18446744073709551614 }; Resume { thread: 0, address: 8 } Some(TimeOut { thread: 0, address: 8 }); 6 steps, i32 2
# Still asleep.
00 | 00 4108 417e 4205 fe010204 410a 6a 0b | sleeps | Wait { width: I32, thread: 0, address: 12, expected: 4294967294 }; Resume { thread: 0, address: 12 } Some(TimeOut { thread: 0, address: 12 }); 4 steps, waiting
# Not yet answered.
00 | 00 4108 417e 4205 fe010204 410a 6a 0b | - | Wait { width: I32, thread: 0, address: 12, expected: 4294967294 }; 3 steps, running
# A trap in place of the answer.
00 | 00 4108 417e 4205 fe010204 410a 6a 0b | trap | Wait { width: I32, thread: 0, address: 12, expected: 4294967294 }; 4 steps, trap 4 out of bounds
# One wait after another.
00 | 00 4108 4100 4200 fe010200 4110 4100 427f fe010200 6a 0b | sleeps, i32 2, sleeps, i32 0 | Wait { width: I32, thread: 0, address: 8, expected: 0 }; Resume { thread: 0, address: 8 } Some(TimeOut { thread: 0, address: 8 }); Wait { width: I32, thread: 0, address: 16, expected: 0 }; Resume { thread: 0, address: 16 } None; 12 steps, i32 2
";

#[test]
fn threads_trap_before_accesses_and_wait(rt: HostRuntime) -> Result<(), Fail> {
    stand(&rt, rt.alloc(), &Profile::One, TRAPS)?;
    stand(&rt, rt.alloc(), &Profile::One, WAITS)
}
