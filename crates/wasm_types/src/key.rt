//! What names a recorded run.

ghost use Rattle.std.specs.Prelude.{◌≡◌, ◌++◌};
ghost use Rattle.sha2.specs.Sha256.{sha256};

use crate::block::Block;
use crate::no_memory::NoMemory;
use crate::same::Same;
use sha2::{Digest, Sha256};
use std::alloc::Global;
use std::fmt;

/// The rules that a run was recorded by. Profile 1 has blocks of 64 bytes and at most 16 pages of memory, profile 2
/// has a chosen size of blocks, at most 256 pages, and the sign-extension instructions.
#[derive(Clone, Copy, Debug, PartialEq, Eq)]
pub enum Profile {
    One,
    Two(Block),
}

/// The key of a run: the SHA-256 digest of module and plan, a number chosen for the run, and its profile.
#[derive(Clone, Copy, Debug, PartialEq, Eq)]
pub struct RunKey {
    pub digest: [u8; 32],
    pub run: u64,
    pub profile: Profile,
}

impl RunKey {
    /// The key of a run of the module with these bytes under the plan with these: the digest is that of the module's
    /// bytes followed by the plan's (FIPS 180-4, SHA-256). It takes no memory.
    pub fn of(module: &[u8], plan: &[u8], run: u64, profile: Profile) -> RunKey
        ensures digest { result.digest ≡ sha256 (module.now ++ plan.now) }
        ensures run { result.run ≡ run }
        ensures profile { result.profile ≡ profile }
    {
        let mut hasher = Sha256::new();
        hasher.update(module);
        hasher.update(plan);
        RunKey {
            digest: hasher.finalize(),
            run,
            profile,
        }
    }
}

/// A byte that is shown as two lower-case hexadecimal digits.
#[derive(Clone, Copy)]
struct HexByte(u8);

impl fmt::Display for HexByte {
    ghost use Rattle.std.specs.Prelude.{Some};
    ghost use Rattle.wasm_types.specs.Text.{byte_text};

    ghost output = { λ b. Some (byte_text b.0) };

    #[tactic(auto, using(std::proofs::lemmas::Fmt::hex_byte))]
    fn fmt<W: fmt::Write>(&self, f: &mut fmt::Formatter<W>) -> fmt::Result {
        let byte = self.0;
        write!(f, "{byte:02x}")
    }
}

impl fmt::Display for RunKey {
    ghost use Rattle.std.specs.Prelude.{Some};
    ghost use Rattle.wasm_types.specs.Text.{key_text};

    ghost output = { λ k. Some (key_text k) };

    /// The digest in lower-case hexadecimal, `:` and the run's number; in profile 2 also `:` and the block's size.
    fn fmt<W: fmt::Write>(&self, f: &mut fmt::Formatter<W>) -> fmt::Result {
        for byte in &self.digest {
            write!(f, "{}", HexByte(*byte))?;
        }
        write!(f, ":{}", self.run)?;
        match self.profile {
            Profile::One => Ok(()),
            Profile::Two(block) => write!(f, ":{}", block.size()),
        }
    }
}

impl Same for Profile {
    fn copy(&self, _alloc: Global) -> Result<Profile, NoMemory> {
        Ok(*self)
    }

    ghost use Rattle.std.specs.Prelude.{refl};
    ghost use Rattle.wasm_types.specs.Decides.{profile_decides};

    ghost decides = { profile_decides _ refl (λ b. refl) (λ b. refl) (λ a b. refl) };
}

impl Same for RunKey {
    fn copy(&self, _alloc: Global) -> Result<RunKey, NoMemory> {
        Ok(*self)
    }

    ghost use Rattle.std.specs.Prelude.{refl};
    ghost use Rattle.wasm_types.specs.Decides.{key_decides, profile_decides};

    ghost decides = { key_decides ⟦<Profile as PartialEq>⟧.eq (profile_decides _ refl (λ b. refl) (λ b. refl) (λ a b. refl)) };
}
