//! What accesses take and hand on: widths and types.

ghost use Rattle.std.specs.Prelude.{◌≡◌, ◌^◌, ◌*◌, ◌≤◌};
ghost use Rattle.std.specs.Int.{byte_len};
ghost use mir.Val.{bits};
ghost use Rattle.wasm_types.specs.Accesses.{narrow_type, access_type, type_width, narrow_width, access_width, load_access, load_width, atomic_width, exponent_of};
ghost use Rattle.wasm_types.specs.Widths.{width_of};

use crate::instruction::{Access, AtomicOp, Load, Narrow};
use crate::value::ValType;

/// How many bytes an access takes: 1, 2, 4 or 8.
#[derive(Clone, Copy, Debug, PartialEq, Eq)]
pub enum Width {
    One,
    Two,
    Four,
    Eight,
}

impl Width {
    /// The bytes, from 1 to 8.
    #[inline(always)]
    pub fn bytes(self) -> u32
        ensures len { result ≡ byte_len (width_of self) }
        ensures power { result ≡ 2 ^ exponent_of (width_of self) }
        ensures eighth { bits (width_of self) ≡ 8 * result }
        ensures some { 1 ≤ result }
        ensures few { result ≤ 8 }
    {
        match self {
            Width::One => 1,
            Width::Two => 2,
            Width::Four => 4,
            Width::Eight => 8,
        }
    }

    /// The exponent of two that the bytes are, from 0 to 3.
    #[inline(always)]
    pub fn exponent(self) -> u32
        ensures exponent { result ≡ exponent_of (width_of self) }
        ensures few { result ≤ 3 }
    {
        match self {
            Width::One => 0,
            Width::Two => 1,
            Width::Four => 2,
            Width::Eight => 3,
        }
    }
}

impl ValType {
    /// How many bytes a number of the type takes.
    #[inline(always)]
    pub fn width(self) -> Width
        ensures { width_of result ≡ type_width self }
    {
        match self {
            ValType::I32 => Width::Four,
            ValType::I64 => Width::Eight,
        }
    }
}

impl Narrow {
    /// The type that the number is made.
    #[inline(always)]
    pub fn val_type(self) -> ValType
        ensures { result ≡ narrow_type self }
    {
        match self {
            Narrow::I32Of8 | Narrow::I32Of16 => ValType::I32,
            Narrow::I64Of8 | Narrow::I64Of16 | Narrow::I64Of32 => ValType::I64,
        }
    }

    /// How many bytes the access takes.
    #[inline(always)]
    pub fn width(self) -> Width
        ensures { width_of result ≡ narrow_width self }
    {
        match self {
            Narrow::I32Of8 | Narrow::I64Of8 => Width::One,
            Narrow::I32Of16 | Narrow::I64Of16 => Width::Two,
            Narrow::I64Of32 => Width::Four,
        }
    }
}

impl Access {
    /// The type of what the access hands on.
    #[inline(always)]
    pub fn val_type(self) -> ValType
        ensures { result ≡ access_type self }
    {
        match self {
            Access::Whole(of) => of,
            Access::Narrow(narrow) => narrow.val_type(),
        }
    }

    /// How many bytes the access takes.
    #[inline(always)]
    pub fn width(self) -> Width
        ensures { width_of result ≡ access_width self }
    {
        match self {
            Access::Whole(of) => of.width(),
            Access::Narrow(narrow) => narrow.width(),
        }
    }
}

impl Load {
    /// The load's access.
    #[inline(always)]
    pub fn access(self) -> Access
        ensures { result ≡ load_access self }
    {
        match self {
            Load::Whole(of) => Access::Whole(of),
            Load::Narrow(narrow, _) => Access::Narrow(narrow),
        }
    }

    /// How many bytes the load takes.
    #[inline(always)]
    pub fn width(self) -> Width
        ensures { width_of result ≡ load_width self }
    {
        self.access().width()
    }
}

impl AtomicOp {
    /// How many bytes the instruction takes.
    #[inline(always)]
    pub fn width(self) -> Width
        ensures { width_of result ≡ atomic_width self }
    {
        match self {
            AtomicOp::Notify => Width::Four,
            AtomicOp::Wait(of) => of.width(),
            AtomicOp::Load(access) | AtomicOp::Store(access) => access.width(),
            AtomicOp::Rmw(_, access) | AtomicOp::CompareExchange(access) => access.width(),
        }
    }
}
