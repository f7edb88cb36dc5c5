//! Arithmetic and control. How the threads stand was computed apart from the project.

use crate::trials::stand;
use std::test::Fail;
use wasm_types::{Block, Profile};

const ARITHMETIC: &str = "\
# The constants -1.
00 | 00 417f 0b | - | 2 steps, i32 -1
01 | 00 427f 0b | - | 2 steps, i64 -1
# Sums, differences and products wrap.
00 | 00 41ffffffff07 4101 6a 0b | - | 4 steps, i32 -2147483648
01 | 00 42ffffffffffffffffff00 4201 7c 0b | - | 4 steps, i64 -9223372036854775808
00 | 00 418080808078 4101 6b 0b | - | 4 steps, i32 2147483647
01 | 00 428080808080808080807f 4201 7d 0b | - | 4 steps, i64 9223372036854775807
00 | 00 41818004 41818004 6c 0b | - | 4 steps, i32 131073
01 | 00 428180808010 428180808010 7e 0b | - | 4 steps, i64 8589934593
# The least number by -1.
00 | 00 418080808078 417f 6d 0b | - | 3 steps, trap 3 integer overflow
01 | 00 428080808080808080807f 427f 7f 0b | - | 3 steps, trap 3 integer overflow
00 | 00 418080808078 417f 6f 0b | - | 4 steps, i32 0
01 | 00 428080808080808080807f 427f 81 0b | - | 4 steps, i64 0
# By zero.
00 | 00 4101 4100 6d 0b | - | 3 steps, trap 2 divide by zero
01 | 00 4201 4200 7f 0b | - | 3 steps, trap 2 divide by zero
00 | 00 4101 4100 6e 0b | - | 3 steps, trap 2 divide by zero
01 | 00 4201 4200 80 0b | - | 3 steps, trap 2 divide by zero
00 | 00 4101 4100 6f 0b | - | 3 steps, trap 2 divide by zero
01 | 00 4201 4200 81 0b | - | 3 steps, trap 2 divide by zero
00 | 00 4101 4100 70 0b | - | 3 steps, trap 2 divide by zero
01 | 00 4201 4200 82 0b | - | 3 steps, trap 2 divide by zero
# Quotients go towards zero, and remainders have the sign of the dividend.
00 | 00 4179 4102 6d 0b | - | 4 steps, i32 -3
01 | 00 4279 4202 7f 0b | - | 4 steps, i64 -3
00 | 00 4179 4102 6e 0b | - | 4 steps, i32 2147483644
01 | 00 4279 4202 80 0b | - | 4 steps, i64 9223372036854775804
00 | 00 4179 4102 6f 0b | - | 4 steps, i32 -1
01 | 00 4279 4202 81 0b | - | 4 steps, i64 -1
00 | 00 4179 4102 70 0b | - | 4 steps, i32 1
01 | 00 4279 4202 82 0b | - | 4 steps, i64 1
# Bit by bit.
00 | 00 410c 410a 71 0b | - | 4 steps, i32 8
01 | 00 420c 420a 84 0b | - | 4 steps, i64 14
00 | 00 410c 410a 73 0b | - | 4 steps, i32 6
# The counts of shifts and rotations are modulo 32 and 64.
00 | 00 418380808078 4121 74 0b | - | 4 steps, i32 6
01 | 00 428380808080808080807f 42c100 86 0b | - | 4 steps, i64 6
00 | 00 418380808078 4121 75 0b | - | 4 steps, i32 -1073741823
01 | 00 428380808080808080807f 42c100 87 0b | - | 4 steps, i64 -4611686018427387903
00 | 00 418380808078 4121 76 0b | - | 4 steps, i32 1073741825
01 | 00 428380808080808080807f 42c100 88 0b | - | 4 steps, i64 4611686018427387905
00 | 00 418380808078 4121 77 0b | - | 4 steps, i32 7
01 | 00 428380808080808080807f 42c100 89 0b | - | 4 steps, i64 7
00 | 00 4103 4121 78 0b | - | 4 steps, i32 -2147483647
01 | 00 4203 42c100 8a 0b | - | 4 steps, i64 -9223372036854775807
# Zeros above, zeros below, and ones.
00 | 00 4100 67 0b | - | 3 steps, i32 32
01 | 00 4200 79 0b | - | 3 steps, i64 64
00 | 00 4128 67 0b | - | 3 steps, i32 26
01 | 00 4228 79 0b | - | 3 steps, i64 58
00 | 00 4100 68 0b | - | 3 steps, i32 32
01 | 00 4200 7a 0b | - | 3 steps, i64 64
00 | 00 4128 68 0b | - | 3 steps, i32 3
01 | 00 4228 7a 0b | - | 3 steps, i64 3
00 | 00 4100 69 0b | - | 3 steps, i32 0
01 | 00 4200 7b 0b | - | 3 steps, i64 0
00 | 00 4128 69 0b | - | 3 steps, i32 2
01 | 00 4228 7b 0b | - | 3 steps, i64 2
# Comparisons, signed and unsigned.
00 | 00 417f 4101 48 0b | - | 4 steps, i32 1
00 | 00 427f 4201 53 0b | - | 4 steps, i32 1
00 | 00 417f 4101 49 0b | - | 4 steps, i32 0
00 | 00 427f 4201 54 0b | - | 4 steps, i32 0
00 | 00 417f 4101 4a 0b | - | 4 steps, i32 0
00 | 00 427f 4201 55 0b | - | 4 steps, i32 0
00 | 00 417f 4101 4b 0b | - | 4 steps, i32 1
00 | 00 427f 4201 56 0b | - | 4 steps, i32 1
00 | 00 417f 4101 4c 0b | - | 4 steps, i32 1
00 | 00 427f 4201 57 0b | - | 4 steps, i32 1
00 | 00 417f 4101 4d 0b | - | 4 steps, i32 0
00 | 00 427f 4201 58 0b | - | 4 steps, i32 0
00 | 00 417f 4101 4e 0b | - | 4 steps, i32 0
00 | 00 427f 4201 59 0b | - | 4 steps, i32 0
00 | 00 417f 4101 4f 0b | - | 4 steps, i32 1
00 | 00 427f 4201 5a 0b | - | 4 steps, i32 1
00 | 00 417f 4101 46 0b | - | 4 steps, i32 0
00 | 00 427f 4201 51 0b | - | 4 steps, i32 0
00 | 00 417f 4101 47 0b | - | 4 steps, i32 1
00 | 00 427f 4201 52 0b | - | 4 steps, i32 1
# Of equal numbers.
00 | 00 4105 4105 48 0b | - | 4 steps, i32 0
00 | 00 4205 4205 53 0b | - | 4 steps, i32 0
00 | 00 4105 4105 4b 0b | - | 4 steps, i32 0
00 | 00 4205 4205 56 0b | - | 4 steps, i32 0
00 | 00 4105 4105 4c 0b | - | 4 steps, i32 1
00 | 00 4205 4205 57 0b | - | 4 steps, i32 1
00 | 00 4105 4105 4f 0b | - | 4 steps, i32 1
00 | 00 4205 4205 5a 0b | - | 4 steps, i32 1
00 | 00 4105 4105 46 0b | - | 4 steps, i32 1
00 | 00 4205 4205 51 0b | - | 4 steps, i32 1
00 | 00 4105 4105 47 0b | - | 4 steps, i32 0
00 | 00 4205 4205 52 0b | - | 4 steps, i32 0
# Zero or not.
00 | 00 4100 45 0b | - | 3 steps, i32 1
00 | 00 428080808010 50 0b | - | 3 steps, i32 0
# From one type to the other.
00 | 00 428180808070 a7 0b | - | 3 steps, i32 1
01 | 00 417e ac 0b | - | 3 steps, i64 -2
01 | 00 417e ad 0b | - | 3 steps, i64 4294967294
";

/// Profile 2 alone has these.
const EXTENSIONS: &str = "\
00 | 00 418025 c0 0b | - | 3 steps, i32 -128
00 | 00 41ff24 c0 0b | - | 3 steps, i32 127
00 | 00 41808006 c1 0b | - | 3 steps, i32 -32768
01 | 00 428025 c2 0b | - | 3 steps, i64 -128
01 | 00 42808006 c3 0b | - | 3 steps, i64 -32768
01 | 00 428080808018 c4 0b | - | 3 steps, i64 -2147483648
";

const CONTROL: &str = "\
# A branch out of a block keeps the result, and the operands below it go.
00 | 00 410a 027f 4101 4102 4103 0c00 0b 6a 0b | - | 8 steps, i32 13
# Out of two blocks.
00 | 00 410a 027f 4101 027e 4202 4103 0c01 0b 1a 1a 4104 0b 6a 0b | - | 9 steps, i32 13
# Without a result.
02 | 00 0240 0240 0c01 0b 00 0b 0b | - | 4 steps, none
# To the function.
00 | 00 4101 4102 0240 4103 0c01 0b 6a 0b | - | 5 steps, i32 3
# A branch to a loop begins it anew, without its operands.
00 | 01017f 41e400 037f 4105 2000 4101 6a 2200 4103 49 0d00 0b 6a 0b | - | 29 steps, i32 105
# Out of a loop.
00 | 01017f 0240 0340 2000 4101 6a 2200 4104 4f 0d01 0c00 0b 0b 2000 0b | - | 35 steps, i32 4
# A branch on zero is not taken, another is.
00 | 00 027f 4101 4100 0d00 1a 4102 0b 0b | - | 8 steps, i32 2
00 | 00 027f 4101 417f 0d00 1a 4102 0b 0b | - | 5 steps, i32 1
# A branch table: by its first label, its last, and past its end.
00 | 00 0240 0240 0240 4100 0e02000102 0b 410a 0f 0b 410b 0f 0b 410c 0b | - | 7 steps, i32 10
00 | 00 0240 0240 0240 4101 0e02000102 0b 410a 0f 0b 410b 0f 0b 410c 0b | - | 7 steps, i32 11
00 | 00 0240 0240 0240 4102 0e02000102 0b 410a 0f 0b 410b 0f 0b 410c 0b | - | 7 steps, i32 12
00 | 00 0240 0240 0240 417f 0e02000102 0b 410a 0f 0b 410b 0f 0b 410c 0b | - | 7 steps, i32 12
# A branch table to the function.
00 | 00 027f 4107 4108 4100 0e010100 0b 1a 4109 0b | - | 5 steps, i32 8
# On zero and not on zero: with an else, without one, and with a result.
00 | 01017f 4100 0440 4105 2100 05 4106 2100 0b 2000 0b | - | 7 steps, i32 6
00 | 01017f 4100 0440 4105 2100 0b 2000 0b | - | 4 steps, i32 0
00 | 00 4101 4100 047f 4114 05 411e 0b 6a 0b | - | 7 steps, i32 31
00 | 01017f 4101 0440 4105 2100 05 4106 2100 0b 2000 0b | - | 7 steps, i32 5
00 | 01017f 4101 0440 4105 2100 0b 2000 0b | - | 7 steps, i32 5
00 | 00 4101 4101 047f 4114 05 411e 0b 6a 0b | - | 7 steps, i32 21
# Branches out of the arms.
00 | 00 4101 4100 047f 4102 4114 0c00 05 4103 411e 0c00 0b 6a 0b | - | 8 steps, i32 31
00 | 00 4101 4101 047f 4102 4114 0c00 05 4103 411e 0c00 0b 6a 0b | - | 8 steps, i32 21
# A return from inside blocks.
00 | 00 0240 4101 0440 0340 4101 0440 4101 4102 0f 0b 0b 0b 0b 4103 0b | - | 9 steps, i32 2
# What stops, what does nothing, and what takes an operand.
02 | 00 00 0b | - | 1 steps, trap 1 unreachable
02 | 00 01 0b | - | 2 steps, none
00 | 00 4104 4105 1a 0b | - | 4 steps, i32 4
# The first on another number than zero, the second on zero.
00 | 00 4104 4105 4100 1b 0b | - | 5 steps, i32 5
01 | 00 4204 4205 418002 1b 0b | - | 5 steps, i64 4
# Locals begin at zero.
00 | 01017f 2000 0b | - | 2 steps, i32 0
01 | 02017f017e 2001 0b | - | 2 steps, i64 0
# A tee leaves its operand.
00 | 01027f 4106 2201 2001 6a 0b | - | 5 steps, i32 12
00 | 01027f 4106 2101 2000 0b | - | 4 steps, i32 0
# Globals.
00 | 00 2300 4105 2400 2300 6c 0b | - | 6 steps, i32 35
01 | 00 2301 0b | - | 2 steps, i64 -1
";

const GROUPS: &str = "\
# A difference of the two operands on top, of one and a local or a constant, of two locals, of a local and a constant; it stays there, or
# goes to a local, or both.
00 | 01037f 4107 2100 4105 2101 2000 417e 6b 2001 4101 6b 6b 0b | - | 12 steps, i32 5
00 | 01037f 4107 2100 4105 2101 2000 417e 6b 2001 4101 6b 6b 2102 2002 0b | - | 14 steps, i32 5
00 | 01037f 4107 2100 4105 2101 2000 417e 6b 2001 4101 6b 6b 2202 2002 6b 2002 6b 0b | - | 17 steps, i32 -5
00 | 01037f 4107 2100 4105 2101 2000 4177 6b 2001 6b 0b | - | 10 steps, i32 11
00 | 01037f 4107 2100 4105 2101 2000 4177 6b 2001 6b 2102 2002 0b | - | 12 steps, i32 11
00 | 01037f 4107 2100 4105 2101 2000 4177 6b 2001 6b 2202 2002 6b 2002 6b 0b | - | 15 steps, i32 -11
00 | 01037f 4107 2100 4105 2101 2000 2000 6b 417d 6b 0b | - | 10 steps, i32 3
00 | 01037f 4107 2100 4105 2101 2000 2000 6b 417d 6b 2102 2002 0b | - | 12 steps, i32 3
00 | 01037f 4107 2100 4105 2101 2000 2000 6b 417d 6b 2202 2002 6b 2002 6b 0b | - | 15 steps, i32 -3
00 | 01037f 4107 2100 4105 2101 2000 2001 6b 0b | - | 8 steps, i32 2
00 | 01037f 4107 2100 4105 2101 2000 2001 6b 2102 2002 0b | - | 10 steps, i32 2
00 | 01037f 4107 2100 4105 2101 2000 2001 6b 2202 2002 6b 2002 6b 0b | - | 13 steps, i32 -2
00 | 01037f 4107 2100 4105 2101 2000 417c 6b 0b | - | 8 steps, i32 11
00 | 01037f 4107 2100 4105 2101 2000 417c 6b 2102 2002 0b | - | 10 steps, i32 11
00 | 01037f 4107 2100 4105 2101 2000 417c 6b 2202 2002 6b 2002 6b 0b | - | 13 steps, i32 -11
01 | 01037e 4207 2100 4205 2101 2000 427e 7d 2001 4201 7d 7d 0b | - | 12 steps, i64 5
01 | 01037e 4207 2100 4205 2101 2000 427e 7d 2001 4201 7d 7d 2102 2002 0b | - | 14 steps, i64 5
01 | 01037e 4207 2100 4205 2101 2000 427e 7d 2001 4201 7d 7d 2202 2002 7d 2002 7d 0b | - | 17 steps, i64 -5
01 | 01037e 4207 2100 4205 2101 2000 4277 7d 2001 7d 0b | - | 10 steps, i64 11
01 | 01037e 4207 2100 4205 2101 2000 4277 7d 2001 7d 2102 2002 0b | - | 12 steps, i64 11
01 | 01037e 4207 2100 4205 2101 2000 4277 7d 2001 7d 2202 2002 7d 2002 7d 0b | - | 15 steps, i64 -11
01 | 01037e 4207 2100 4205 2101 2000 2000 7d 427d 7d 0b | - | 10 steps, i64 3
01 | 01037e 4207 2100 4205 2101 2000 2000 7d 427d 7d 2102 2002 0b | - | 12 steps, i64 3
01 | 01037e 4207 2100 4205 2101 2000 2000 7d 427d 7d 2202 2002 7d 2002 7d 0b | - | 15 steps, i64 -3
01 | 01037e 4207 2100 4205 2101 2000 2001 7d 0b | - | 8 steps, i64 2
01 | 01037e 4207 2100 4205 2101 2000 2001 7d 2102 2002 0b | - | 10 steps, i64 2
01 | 01037e 4207 2100 4205 2101 2000 2001 7d 2202 2002 7d 2002 7d 0b | - | 13 steps, i64 -2
01 | 01037e 4207 2100 4205 2101 2000 427c 7d 0b | - | 8 steps, i64 11
01 | 01037e 4207 2100 4205 2101 2000 427c 7d 2102 2002 0b | - | 10 steps, i64 11
01 | 01037e 4207 2100 4205 2101 2000 427c 7d 2202 2002 7d 2002 7d 0b | - | 13 steps, i64 -11
";

#[test]
fn each_function_computes_its_result(rt: HostRuntime) -> Result<(), Fail> {
    stand(&rt, rt.alloc(), &Profile::One, ARITHMETIC)?;
    stand(&rt, rt.alloc(), &Profile::One, GROUPS)?;
    stand(&rt, rt.alloc(), &Profile::Two(Block::least()), EXTENSIONS)?;
    stand(&rt, rt.alloc(), &Profile::One, CONTROL)
}
