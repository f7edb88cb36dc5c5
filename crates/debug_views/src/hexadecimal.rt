//! Hexadecimal numbers in lines.

ghost use Rattle.std.specs.Prelude.{◌≡◌, ◌+◌, ◌*◌, ◌/◌, ◌%◌, ◌<◌, ◌≤◌, ◌^◌, false, [], ◌∷◌, ◌++◌, codes, length};
ghost use Rattle.std.specs.Fmt.{digits, digit_glyph};
ghost use Rattle.arrayvec.specs.ArrayString.{array_string_len};

use crate::numbers::Line;

/// Two digits for each number below 256, one after another.
const BYTES: &str = "\
000102030405060708090a0b0c0d0e0f101112131415161718191a1b1c1d1e1f202122232425262728292a2b2c2d2e2f\
303132333435363738393a3b3c3d3e3f404142434445464748494a4b4c4d4e4f505152535455565758595a5b5c5d5e5f\
606162636465666768696a6b6c6d6e6f707172737475767778797a7b7c7d7e7f808182838485868788898a8b8c8d8e8f\
909192939495969798999a9b9c9d9e9fa0a1a2a3a4a5a6a7a8a9aaabacadaeafb0b1b2b3b4b5b6b7b8b9babbbcbdbebf\
c0c1c2c3c4c5c6c7c8c9cacbcccdcecfd0d1d2d3d4d5d6d7d8d9dadbdcdddedfe0e1e2e3e4e5e6e7e8e9eaebecedeeef\
f0f1f2f3f4f5f6f7f8f9fafbfcfdfeff";

/// The digit of a number below 16.
#[inline(always)]
fn digit(number: u64) -> &'static str
    requires { number < 16 }
    ensures digit { result.now ≡ digits 16 false number }
    ensures short { length result.now ≡ 1 }
{
    let at = number as usize * 2 + 1;
    &BYTES[at..at + 1]
}

/// The two digits of a number below 256.
#[inline(always)]
fn byte(number: u64) -> &'static str
    requires { number < 256 }
    ensures digits { result.now ≡ digit_glyph false (number / 16) ∷ digit_glyph false (number % 16) ∷ [] }
    ensures short { length result.now ≡ 2 }
{
    let at = number as usize * 2;
    &BYTES[at..at + 2]
}

/// Puts a number below 256 behind a line.
#[inline(always)]
fn put_first(line: &mut Line, number: u64)
    requires room { array_string_len line.old + 2 ≤ 1024 }
    requires number { number < 256 }
    ensures text { line.new.bytes ≡ line.old.bytes ++ digits 16 false number }
    ensures short { array_string_len line.new ≤ array_string_len line.old + 2 }
{
    if number < 16 {
        line.push_str(digit(number));
    } else {
        line.push_str(byte(number));
    }
}

/// Puts a number below 65,536 behind a line.
#[inline(always)]
fn put_short(line: &mut Line, number: u64)
    requires room { array_string_len line.old + 4 ≤ 1024 }
    requires number { number < 65536 }
    ensures text { line.new.bytes ≡ line.old.bytes ++ digits 16 false number }
    ensures short { array_string_len line.new ≤ array_string_len line.old + 4 }
{
    if number < 256 {
        put_first(line, number);
    } else {
        put_first(line, number / 256);
        line.push_str(byte(number % 256));
    }
}

/// Puts a number below 4,294,967,296 behind a line.
#[inline(always)]
fn put_medium(line: &mut Line, number: u64)
    requires room { array_string_len line.old + 8 ≤ 1024 }
    requires number { number < 2 ^ 32 }
    ensures text { line.new.bytes ≡ line.old.bytes ++ digits 16 false number }
    ensures short { array_string_len line.new ≤ array_string_len line.old + 8 }
{
    if number < 65_536 {
        put_short(line, number);
    } else {
        put_short(line, number / 65_536);
        line.push_str(byte(number / 256 % 256));
        line.push_str(byte(number % 256));
    }
}

/// Puts a number that is not below 4,294,967,296 behind a line.
fn put_long(line: &mut Line, number: u64)
    requires room { array_string_len line.old + 16 ≤ 1024 }
    requires number { 2 ^ 32 ≤ number }
    ensures text { line.new.bytes ≡ line.old.bytes ++ digits 16 false number }
    ensures short { array_string_len line.new ≤ array_string_len line.old + 16 }
{
    put_medium(line, number / 4_294_967_296);
    line.push_str(byte(number / 16_777_216 % 256));
    line.push_str(byte(number / 65_536 % 256));
    line.push_str(byte(number / 256 % 256));
    line.push_str(byte(number % 256));
}

/// Puts `0x` and a number behind a line.
#[inline(always)]
pub(crate) fn put_hexadecimal(line: &mut Line, number: u64)
    requires { array_string_len line.old + 18 ≤ 1024 }
    ensures text { line.new.bytes ≡ line.old.bytes ++ (codes "0x" ++ digits 16 false number) }
    ensures short { array_string_len line.new ≤ array_string_len line.old + 18 }
{
    line.push_str("0x");
    if number < 4_294_967_296 {
        put_medium(line, number);
    } else {
        put_long(line, number);
    }
}
