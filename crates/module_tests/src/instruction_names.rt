//! Names of instructions at the ends of the rows of names, where a row that is one off is seen.

use binary_decoder::OpCode;
use explanations::name_of;
use std::test::Fail;

// The name of the instruction of a code, or `none`.
fn name(code: OpCode) -> &'static str {
    name_of(code).unwrap_or("none")
}

#[test]
fn instructions_of_one_byte_have_their_names(rt: HostRuntime) -> Result<(), Fail> {
    assert_eq!(rt; name(OpCode::Byte(0x00)), "unreachable");
    assert_eq!(rt; name(OpCode::Byte(0x17)), "none");
    assert_eq!(rt; name(OpCode::Byte(0x1A)), "drop");
    assert_eq!(rt; name(OpCode::Byte(0x27)), "none");
    assert_eq!(rt; name(OpCode::Byte(0x28)), "i32.load");
    assert_eq!(rt; name(OpCode::Byte(0x6A)), "i32.add");
    assert_eq!(rt; name(OpCode::Byte(0xC4)), "i64.extend32_s");
    assert_eq!(rt; name(OpCode::Byte(0xC5)), "none");
    assert_eq!(rt; name(OpCode::Byte(0xD0)), "ref.null");
    assert_eq!(rt; name(OpCode::Byte(0xE6)), "switch");
    assert_eq!(rt; name(OpCode::Byte(0xE7)), "none");
    assert_eq!(rt; name(OpCode::Byte(0xFF)), "none");
    Ok(())
}

#[test]
fn instructions_behind_a_byte_have_their_names(rt: HostRuntime) -> Result<(), Fail> {
    assert_eq!(rt; name(OpCode::Bulk(0x00)), "i32.trunc_sat_f32_s");
    assert_eq!(rt; name(OpCode::Bulk(0x08)), "memory.init");
    assert_eq!(rt; name(OpCode::Bulk(0x16)), "i64.mul_wide_u");
    assert_eq!(rt; name(OpCode::Bulk(0x17)), "none");
    assert_eq!(rt; name(OpCode::Atomic(0x00)), "memory.atomic.notify");
    assert_eq!(rt; name(OpCode::Atomic(0x03)), "atomic.fence");
    assert_eq!(rt; name(OpCode::Atomic(0x04)), "none");
    assert_eq!(rt; name(OpCode::Atomic(0x0F)), "none");
    assert_eq!(rt; name(OpCode::Atomic(0x10)), "i32.atomic.load");
    assert_eq!(rt; name(OpCode::Atomic(0x4E)), "i64.atomic.rmw32.cmpxchg_u");
    assert_eq!(rt; name(OpCode::Atomic(0x4F)), "none");
    Ok(())
}
