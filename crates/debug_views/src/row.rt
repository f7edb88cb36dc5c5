//! Rows of a memory as text.

use std::fmt;

/// A byte that is shown as two lower-case hexadecimal digits.
#[derive(Clone, Copy)]
struct HexByte(u8);

impl fmt::Display for HexByte {
    ghost use Rattle.std.specs.Prelude.{Some};
    ghost use Rattle.wasm_types.specs.Text.{byte_text};

    ghost output = { λ b. Some (byte_text b.0) };

    #[tactic(auto, using(std::proofs::lemmas::Fmt::hex_byte))]
    fn fmt<W: fmt::Write>(&self, f: &mut fmt::Formatter<W>) -> fmt::Result {
        let byte = self.0;
        write!(f, "{byte:02x}")
    }
}

/// Bytes that are shown as lower-case hexadecimal digits, two a byte.
#[derive(Clone, Copy)]
pub(crate) struct HexBytes<'a>(pub(crate) &'a [u8]);

impl<'a> fmt::Display for HexBytes<'a> {
    ghost use Rattle.std.specs.Prelude.{Some};
    ghost use Rattle.std.specs.List.{flat_map};
    ghost use Rattle.wasm_types.specs.Text.{byte_text};

    ghost output = { λ b. Some (flat_map byte_text b.0.now) };

    fn fmt<W: fmt::Write>(&self, f: &mut fmt::Formatter<W>) -> fmt::Result {
        for byte in self.0 {
            write!(f, "{}", HexByte(*byte))?;
        }
        Ok(())
    }
}
