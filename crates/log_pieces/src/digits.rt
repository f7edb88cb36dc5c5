//! Bytes out of lower-case hexadecimal digits.

ghost use Rattle.std.specs.Prelude.{◌≡◌, ℕ, ◌<◌, ◌*◌, length, true, Ok, Err, Some, IfOk};
ghost use Rattle.std.specs.List.{list_all};
ghost use Rattle.hex.specs.Hex.{hex_digit_value, pair_value, decode_pairs, decode_of};
ghost use Rattle.hex.specs.declared.error.FromHexError.TheVariants.{OddLength};
ghost use Rattle.log_pieces.specs.Line.{is_lower_digit};
ghost use Rattle.log_pieces.specs.declared.fault.LineFault.{LineFault};

use crate::fault::{DecodeFault, LineFault};
use std::alloc::Global;

/// A number in 32 bits; the greatest of these where it is above them.
pub(crate) fn saturated(number: usize) -> u32 {
    u32::try_from(number).unwrap_or(u32::MAX)
}

/// The value of a digit.
fn value_of(digit: u8) -> u8
    requires { is_lower_digit digit ≡ true }
    ensures value { hex_digit_value digit ≡ Some result }
    ensures small { result < 16 }
{
    if digit > b'9' {
        digit - (b'a' - 10)
    } else {
        digit - b'0'
    }
}

/// The byte of two digits.
fn byte_of(high: u8, low: u8) -> u8
    requires high { is_lower_digit high ≡ true }
    requires low { is_lower_digit low ≡ true }
    ensures { (i : ℕ) → pair_value high low i ≡ Ok result }
{
    value_of(high) * 16 + value_of(low)
}

/// Puts the bytes of digits into place of others. No branch is left in its loop, so that many are made at a time.
fn put_bytes(digits: &[u8], out: &mut [u8])
    requires lower { list_all is_lower_digit digits.now ≡ true }
    requires two { length digits.now ≡ 2 * length out.old }
    ensures { decode_pairs 0 digits.now ≡ Ok out.new }
{
    'bytes: for i in 0..out.len() {
        out[i] = byte_of(digits[2 * i], digits[2 * i + 1]);
    }
}

/// The bytes of digits. Its errors: refusal 34 where a digit is left over, 35 where memory runs out.
pub(crate) fn bytes_of(alloc: Global, digits: &[u8]) -> Result<Vec<u8>, DecodeFault>
    requires { list_all is_lower_digit digits.now ≡ true }
    ensures ok { IfOk result (λ bytes. decode_of digits.now ≡ Ok bytes.items) }
    ensures none { (fault : LineFault) → result ≡ Err (DecodeFault.NotAPiece fault) → decode_of digits.now ≡ Err OddLength }
{
    if digits.len() % 2 != 0 {
        return Err(DecodeFault::NotAPiece(LineFault::OddDigits {
            digits: saturated(digits.len()),
        }));
    }
    let mut bytes = vec![in alloc; 0u8; digits.len() / 2]?;
    put_bytes(digits, bytes.as_mut_slice());
    Ok(bytes)
}
