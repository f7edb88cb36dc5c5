//! What a load answers.

ghost use Rattle.std.specs.Prelude.{◌≡◌, ◌+◌, ◌^◌, ◌<◌, ◌≤◌, length};
ghost use Rattle.std.specs.Int.{byte_len};
ghost use mir.Val.{bits};
ghost use Rattle.wasm_types.specs.Values.{value_of};
ghost use Rattle.wasm_types.specs.Accesses.{access_type, access_width, load_width, narrow_width, type_width};
ghost use Rattle.block_objects.specs.Access.{number_at, loaded};
ghost use Rattle.wasm_types.specs.declared.instruction.Load.TheVariants as load;
ghost use Rattle.wasm_types.specs.declared.instruction.Extension.TheVariants.{Signed, Unsigned};

use crate::numbers::{u8_at, u16_at, u32_at, u64_at};
use wasm_types::{Access, Extension, Load, Narrow, ValType, Value};

/// What a load answers at a place that has its bytes.
#[inline(always)]
pub fn load_value(bytes: &[u8], load: Load, at: usize) -> Value
    requires { at + byte_len (load_width load) ≤ length bytes.now }
    ensures { result ≡ loaded load (number_at (load_width load) at bytes.now) }
{
    match load {
        Load::Whole(ValType::I32) => Value::I32(u32_at(bytes, at)),
        Load::Whole(ValType::I64) => Value::I64(u64_at(bytes, at)),
        Load::Narrow(narrow, Extension::Signed) => load_signed(bytes, narrow, at),
        Load::Narrow(narrow, Extension::Unsigned) => load_unsigned(bytes, narrow, at),
    }
}

/// What a narrow load answers that extends by zeros.
#[inline(always)]
fn load_unsigned(bytes: &[u8], narrow: Narrow, at: usize) -> Value
    requires { at + byte_len (narrow_width narrow) ≤ length bytes.now }
    ensures { result ≡ loaded (load.Narrow narrow Unsigned) (number_at (narrow_width narrow) at bytes.now) }
{
    match narrow {
        Narrow::I32Of8 => Value::I32(u32::from(u8_at(bytes, at))),
        Narrow::I32Of16 => Value::I32(u32::from(u16_at(bytes, at))),
        Narrow::I64Of8 => Value::I64(u64::from(u8_at(bytes, at))),
        Narrow::I64Of16 => Value::I64(u64::from(u16_at(bytes, at))),
        Narrow::I64Of32 => Value::I64(u64::from(u32_at(bytes, at))),
    }
}

/// What a narrow load answers that extends by the sign.
#[inline(always)]
fn load_signed(bytes: &[u8], narrow: Narrow, at: usize) -> Value
    requires { at + byte_len (narrow_width narrow) ≤ length bytes.now }
    ensures { result ≡ loaded (load.Narrow narrow Signed) (number_at (narrow_width narrow) at bytes.now) }
{
    match narrow {
        Narrow::I32Of8 => { Value::I32(i32::from(u8_at(bytes, at).cast_signed()).cast_unsigned()) }
        Narrow::I32Of16 => {
            Value::I32(i32::from(u16_at(bytes, at).cast_signed()).cast_unsigned())
        }
        Narrow::I64Of8 => { Value::I64(i64::from(u8_at(bytes, at).cast_signed()).cast_unsigned()) }
        Narrow::I64Of16 => {
            Value::I64(i64::from(u16_at(bytes, at).cast_signed()).cast_unsigned())
        }
        Narrow::I64Of32 => {
            Value::I64(i64::from(u32_at(bytes, at).cast_signed()).cast_unsigned())
        }
    }
}

/// The number that an access found as a value of its type.
pub fn access_value(access: Access, number: u64) -> Value
    requires { number < 2 ^ bits (access_width access) }
    ensures { result ≡ value_of (access_type access) number }
{
    match access {
        Access::Whole(ValType::I32) => Value::I32(number as u32),
        Access::Whole(ValType::I64) => Value::I64(number),
        Access::Narrow(Narrow::I32Of8) => Value::I32(number as u32),
        Access::Narrow(Narrow::I32Of16) => Value::I32(number as u32),
        Access::Narrow(Narrow::I64Of8) => Value::I64(number),
        Access::Narrow(Narrow::I64Of16) => Value::I64(number),
        Access::Narrow(Narrow::I64Of32) => Value::I64(number),
    }
}
