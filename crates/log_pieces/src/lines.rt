//! The line of a piece: its bytes in hexadecimal digits.

ghost use Rattle.std.specs.Prelude.{◌≡◌, ◌≢◌, ◌≤◌, ◌+◌, ◌*◌, ◌∷◌, [], ◌++◌, List, ℕ, length, MatchOption, IfOk, Err};
ghost use Rattle.std.specs.List.{list_all};
ghost use Rattle.hex.specs.Hex.{encode_lower};
ghost use Rattle.log_pieces.specs.Piece.{PieceValue};
ghost use Rattle.log_pieces.specs.Line.{IsLineOf, EndsOnce, is_lower_digit};
ghost use Rattle.log_pieces.specs.declared.fault.LineFault.{LineFault};

use crate::digits::{bytes_of, saturated};
use crate::fault::{DecodeFault, LineFault};
use crate::piece::Piece;
use crate::reading::decode;
use crate::writing::encode;
use std::alloc::Global;
use wasm_types::NoMemory;

/// The most bytes that a line has: two digits for each of 266,310 bytes, and the line end.
pub const LONGEST_LINE: usize = 532_621;

/// The line of a piece: its bytes in lower-case hexadecimal digits, and `0A`. It fails only where memory runs out.
pub fn line(alloc: Global, piece: &Piece) -> Result<Vec<u8>, NoMemory>
    ensures { IfOk result (λ line. IsLineOf line.items piece.now) }
{
    let bytes = encode(alloc, piece)?;
    let mut line = vec![in alloc; 0u8; 2 * bytes.len() + 1]?;
    put_digits(&bytes, line.as_mut_slice());
    Ok(line)
}

fn put_digits(bytes: &[u8], line: &mut [u8])
    requires { length line.old ≡ 2 * length bytes.now + 1 }
    ensures { line.new ≡ encode_lower bytes.now ++ 10 ∷ [] }
{
    let digits = 2 * bytes.len();
    // This fits, as there are two digits for each byte.
    let _ = hex::encode_to_slice(bytes, &mut line[..digits]);
    line[digits] = b'\n';
}

/// The piece whose line this is, from its first digit to its `0A`. Its errors: refusal 34 where it is the line of no
/// piece, 35 where memory runs out.
pub fn read_line(alloc: Global, line: &[u8]) -> Result<Piece, DecodeFault>
    ensures ok { IfOk result (IsLineOf line.now) }
    ensures none { (fault : LineFault) → result ≡ Err (DecodeFault.NotAPiece fault) → (p : PieceValue) → IsLineOf line.now p → ⊥ }
{
    let Some(digits) = digits_of(line) else {
        return Err(DecodeFault::NotAPiece(LineFault::NoEnd));
    };
    if !are_lower_digits(digits) {
        return Err(DecodeFault::NotAPiece(digit_fault(digits)));
    }
    match bytes_of(alloc, digits) {
        Ok(bytes) => decode(alloc, &bytes),
        Err(fault) => Err(fault),
    }
}

// What stands before the line end, where the line has one.
fn digits_of(line: &[u8]) -> Option<&[u8]>
    ensures { MatchOption result ((digits : List ℕ) → line.now ≢ digits ++ 10 ∷ []) (λ digits. line.now ≡ digits.now ++ 10 ∷ []) }
{
    match line {
        [digits @ .., b'\n'] => Some(digits),
        _ => None,
    }
}

// It goes through all the digits, without leaving early, so that many are tested at a time.
fn are_lower_digits(digits: &[u8]) -> bool
    ensures { result ≡ list_all is_lower_digit digits.now }
{
    let mut all_lower = true;
    for digit in digits {
        all_lower &= matches!(digit, b'0'..=b'9' | b'a'..=b'f');
    }
    all_lower
}

// The first byte that is no lower-case digit, in bytes that have such a one.
fn digit_fault(digits: &[u8]) -> LineFault {
    let is_lower = |digit: &u8| matches!(*digit, b'a'..=b'f' | b'0'..=b'9');
    let place = digits
        .iter()
        .position(|digit| !is_lower(digit))
        .unwrap_or(0);
    let column = saturated(place).saturating_add(1);
    match digits.get(place..) {
        Some([b'\r']) => LineFault::CarriageReturn,
        Some([b'A'..=b'F', ..]) => LineFault::UpperCase { column },
        Some(rest) => LineFault::NotADigit {
            column,
            bytes: first_six(rest),
        },
        None => LineFault::Empty,
    }
}

// The first six of bytes, and 0 behind the last.
fn first_six(bytes: &[u8]) -> [u8; 6] {
    let byte = |at: usize| bytes.get(at).copied().unwrap_or(0);
    [byte(0), byte(1), byte(2), byte(3), byte(4), byte(5)]
}

/// A law of the lines alone: no piece's line begins another's, and no two pieces have the same.
pub fn lines_stand_apart()
    ensures { (p q : PieceValue) (line rest : List ℕ) → IsLineOf line p → IsLineOf (line ++ rest) q → (p ≡ q) × (rest ≡ []) }
{}

/// A law of the lines alone: a line has one line end, its last byte.
pub fn lines_end_once()
    ensures { (p : PieceValue) (line : List ℕ) → IsLineOf line p → EndsOnce line }
{}

/// A law of the lines alone: how long they can be.
pub fn lines_are_bounded()
    ensures { (p : PieceValue) (line : List ℕ) → IsLineOf line p → length line ≤ LONGEST_LINE }
{}
