//! Values of WebAssembly's integer types.

use crate::no_memory::NoMemory;
use crate::same::Same;
use std::alloc::Global;
use std::fmt;

/// A value type of the integer profile (WebAssembly Core 1.0, value types).
#[derive(Clone, Copy, Debug, PartialEq, Eq)]
pub enum ValType {
    I32,
    I64,
}

/// A value, as its bits. Whether they are read as signed is the instruction's choice.
#[derive(Clone, Copy, Debug, PartialEq, Eq)]
pub enum Value {
    I32(u32),
    I64(u64),
}

impl ValType {
    ghost use Rattle.std.specs.Prelude.{◌≡◌};
    ghost use Rattle.wasm_types.specs.Values.{same_type};

    /// Whether two types are the same.
    #[inline]
    pub fn is_same(self, other: ValType) -> bool
        ensures { result ≡ same_type self other }
    {
        matches!(
            (self, other),
            (ValType::I32, ValType::I32) | (ValType::I64, ValType::I64)
        )
    }
}

impl Value {
    ghost use Rattle.std.specs.Prelude.{◌≡◌};
    ghost use Rattle.wasm_types.specs.Values.{type_of, bits_of};

    /// The value's type.
    #[inline]
    pub fn val_type(self) -> ValType
        ensures { result ≡ type_of self }
    {
        match self {
            Value::I32(_) => ValType::I32,
            Value::I64(_) => ValType::I64,
        }
    }

    /// The value's bits.
    #[inline]
    pub fn bits(self) -> u64
        ensures { result ≡ bits_of self }
    {
        match self {
            Value::I32(bits) => u64::from(bits),
            Value::I64(bits) => bits,
        }
    }
}

impl fmt::Display for Value {
    ghost use Rattle.std.specs.Prelude.{Some};
    ghost use Rattle.wasm_types.specs.Text.{value_text};

    ghost output = { λ v. Some (value_text v) };

    /// `i32` or `i64` and the signed decimal number.
    fn fmt<W: fmt::Write>(&self, f: &mut fmt::Formatter<W>) -> fmt::Result {
        match *self {
            Value::I32(bits) => write!(f, "i32 {}", bits.cast_signed()),
            Value::I64(bits) => write!(f, "i64 {}", bits.cast_signed()),
        }
    }
}

impl Same for Value {
    fn copy(&self, _alloc: Global) -> Result<Value, NoMemory> {
        Ok(*self)
    }

    ghost use Rattle.std.specs.Prelude.{refl};
    ghost use Rattle.wasm_types.specs.Decides.{value_decides};

    ghost decides = { value_decides _ (λ m n. refl) (λ m n. refl) (λ m n. refl) (λ m n. refl) };
}
