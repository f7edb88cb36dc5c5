//! Room for lines that were not written yet, taken before the first of them is made.

ghost use Rattle.std.specs.Prelude.{◌≡◌, ◌+◌, ◌*◌, ◌≤◌, [], ◌++◌, ◌∷◌, length, IfOk};
ghost use Rattle.hex.specs.Hex.{encode_lower};

use std::alloc::Global;
use std::marker::Model;
use wasm_types::NoMemory;

/// Room for lines that were not written yet. Contracts see what waits in it: lines, and perhaps digits of a beginning
/// of one.
#[derive(Drop)]
pub struct LineRoom {
    digits: Vec<u8>,
}

impl Model for LineRoom {
    ghost use Rattle.std.specs.Prelude.{ℕ, ◌≤◌, List, vec_capacity};

    ghost Value = { List ℕ };

    ghost view = { λ r. r.digits.items };

    ghost invariant = { λ r. 98560 ≤ vec_capacity r.digits };
}

impl LineRoom {
    /// Empty room, for as much as is written at once, with a part of a line behind it. No more memory is wanted for
    /// lines that are written through it.
    pub fn new(alloc: Global) -> Result<LineRoom, NoMemory>
        ensures { IfOk result (λ room. room ≡ []) }
    {
        Ok(LineRoom {
            digits: Vec::with_capacity(alloc, 98_560)?,
        })
    }

    /// How many bytes the digits and the line ends are.
    pub(crate) fn len(&self) -> usize
        ensures { result ≡ length self.now }
    {
        self.digits.len()
    }

    /// The digits and the line ends.
    pub(crate) fn as_slice(&self) -> &[u8]
        ensures { result.now ≡ self.now }
    {
        &self.digits
    }

    /// Forgets them.
    pub(crate) fn clear(&mut self)
        ensures { self.new ≡ [] }
    {
        self.digits.clear();
    }

    /// Puts the digits of bytes behind the others.
    pub(crate) fn put(&mut self, bytes: &[u8])
        requires { length self.old + 2 * length bytes.now ≤ 98560 }
        ensures text { self.new ≡ self.old ++ encode_lower bytes.now }
        ensures len { length self.new ≡ length self.old + 2 * length bytes.now }
    {
        let start = self.digits.len();
        let _ = self.digits.resize(start + 2 * bytes.len(), 0);
        // This fits, as there are two digits for each byte.
        let _ = hex::encode_to_slice(bytes, &mut self.digits[start..]);
    }

    /// Ends the line.
    pub(crate) fn end_line(&mut self)
        requires { length self.old + 1 ≤ 98560 }
        ensures { self.new ≡ self.old ++ 10 ∷ [] }
    {
        let _ = self.digits.push(b'\n');
    }
}
