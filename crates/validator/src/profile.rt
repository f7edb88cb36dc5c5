//! Whether a module's runs can be of a profile.

ghost use Rattle.std.specs.Prelude.{◌≡◌};
ghost use Rattle.std.specs.List.{list_all};
ghost use Rattle.validator.specs.Valid.{fits_profile, is_low_extension, negated, has_no_low_extension, is_small, import_is_small};

use crate::valid::Valid;
use wasm_types::{Body, Import, Instr, MemoryType, Numeric, Profile};

impl Valid {
    /// Whether the module's runs can be of a profile: profile 1 has no memory of more than 16 pages at its start and
    /// none of the five sign extensions of low bits, profile 2 takes every module. It takes no memory.
    pub fn fits(&self, profile: &Profile) -> bool
        ensures { result ≡ fits_profile self.now profile.now }
    {
        match profile {
            Profile::One => {
                let module = self.module();
                are_imports_small(module.imports.as_slice())
                    && are_small(module.memories.as_slice())
                    && are_without_low_extension(module.bodies.as_slice())
            }
            Profile::Two(_) => true,
        }
    }
}

fn are_imports_small(imports: &[Import]) -> bool
    ensures { result ≡ list_all import_is_small imports.now }
{
    let mut small = true;
    for import in imports {
        small &= import.memory.limits.minimum <= 16;
    }
    small
}

fn are_small(memories: &[MemoryType]) -> bool
    ensures { result ≡ list_all is_small memories.now }
{
    let mut small = true;
    for memory in memories {
        small &= memory.limits.minimum <= 16;
    }
    small
}

fn are_without_low_extension(bodies: &[Body]) -> bool
    ensures { result ≡ list_all has_no_low_extension bodies.now }
{
    let mut without = true;
    for body in bodies {
        without &= is_without_low_extension(body.code.as_slice());
    }
    without
}

fn is_without_low_extension(code: &[Instr]) -> bool
    ensures { result ≡ list_all (λ i. negated (is_low_extension i)) code.now }
{
    let mut without = true;
    for instr in code {
        without &= !extends_low(*instr);
    }
    without
}

fn extends_low(instr: Instr) -> bool
    ensures { result ≡ is_low_extension instr }
{
    match instr {
        Instr::Numeric(Numeric::ExtendLow(_)) => true,
        _ => false,
    }
}
