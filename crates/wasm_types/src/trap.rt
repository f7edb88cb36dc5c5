//! Why a thread was stopped.

ghost use Rattle.std.specs.Prelude.{◌≡◌, ◌≢◌, IfSome, IfNone};

use std::fmt;

/// A trap. Numbers 1 to 7 name the traps of WebAssembly Core 1.0, 8 its exhausted call stack, 9 and 10 those of
/// the threads proposal; pieces spell a trap by its number.
#[derive(Clone, Copy, Debug, PartialEq, Eq)]
pub enum Trap {
    Unreachable = 1,
    DivideByZero = 2,
    IntegerOverflow = 3,
    OutOfBounds = 4,
    TypeMismatch = 5,
    UndefinedElement = 6,
    UninitializedElement = 7,
    StackExhausted = 8,
    UnalignedAtomic = 9,
    MemoryNotShared = 10,
}

impl Trap {
    ghost use Rattle.wasm_types.specs.declared.trap.Trap.{Trap};
    ghost use Rattle.wasm_types.specs.Trap.{trap_number};

    /// The trap's number, from 1 to 10.
    pub fn number(&self) -> u8
        ensures { result ≡ trap_number self.now }
    {
        match self {
            Trap::Unreachable => 1,
            Trap::DivideByZero => 2,
            Trap::IntegerOverflow => 3,
            Trap::OutOfBounds => 4,
            Trap::TypeMismatch => 5,
            Trap::UndefinedElement => 6,
            Trap::UninitializedElement => 7,
            Trap::StackExhausted => 8,
            Trap::UnalignedAtomic => 9,
            Trap::MemoryNotShared => 10,
        }
    }

    /// The trap of that number, if there is one.
    pub fn from_number(number: u8) -> Option<Trap>
        ensures found { IfSome result (λ trap. trap_number trap ≡ number) }
        ensures none { IfNone result ((trap : Trap) → trap_number trap ≢ number) }
    {
        match number {
            1 => Some(Trap::Unreachable),
            2 => Some(Trap::DivideByZero),
            3 => Some(Trap::IntegerOverflow),
            4 => Some(Trap::OutOfBounds),
            5 => Some(Trap::TypeMismatch),
            6 => Some(Trap::UndefinedElement),
            7 => Some(Trap::UninitializedElement),
            8 => Some(Trap::StackExhausted),
            9 => Some(Trap::UnalignedAtomic),
            10 => Some(Trap::MemoryNotShared),
            _ => None,
        }
    }
}

impl fmt::Display for Trap {
    ghost use Rattle.std.specs.Prelude.{Some};
    ghost use Rattle.wasm_types.specs.Text.{trap_text};

    ghost output = { λ t. Some (trap_text t) };

    /// `trap`, its number and what it means.
    fn fmt<W: fmt::Write>(&self, f: &mut fmt::Formatter<W>) -> fmt::Result {
        f.write_str(match self {
            Trap::Unreachable => "trap 1 unreachable",
            Trap::DivideByZero => "trap 2 divide by zero",
            Trap::IntegerOverflow => "trap 3 integer overflow",
            Trap::OutOfBounds => "trap 4 out of bounds",
            Trap::TypeMismatch => "trap 5 type mismatch",
            Trap::UndefinedElement => "trap 6 undefined element",
            Trap::UninitializedElement => "trap 7 uninitialized element",
            Trap::StackExhausted => "trap 8 stack exhausted",
            Trap::UnalignedAtomic => "trap 9 unaligned atomic",
            Trap::MemoryNotShared => "trap 10 memory not shared",
        })
    }
}
