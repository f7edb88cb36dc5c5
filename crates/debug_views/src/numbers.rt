//! Lines that stand behind a text, and decimal numbers in them.

ghost use Rattle.std.specs.Prelude.{◌≡◌, ◌+◌, ◌*◌, ◌/◌, ◌%◌, ◌<◌, ◌≤◌, [], ◌∷◌, ◌++◌, OnOk, length, string_bytes};
ghost use Rattle.std.specs.Fmt.{decimal};
ghost use Rattle.arrayvec.specs.ArrayString.{array_string_len};
ghost use Rattle.debug_views.specs.TraceLines.{number_text};

use crate::hexadecimal::put_hexadecimal;
use arrayvec::ArrayString;
use itoa::Buffer;
use std::alloc::AllocError;

/// The last lines of a text, or a part of one, which are pushed behind the others at once.
pub(crate) type Line = ArrayString<1024>;

/// The least number that is written in hexadecimal.
const LEAST_HEXADECIMAL: u64 = 65536;

/// Two digits for each number below 100, one after another.
const PAIRS: &str = "\
0001020304050607080910111213141516171819202122232425262728293031323334353637383940414243444546474849\
5051525354555657585960616263646566676869707172737475767778798081828384858687888990919293949596979899";

/// The digit of a number below ten.
#[inline(always)]
fn digit(number: u64) -> &'static str
    requires { number < 10 }
    ensures digit { result.now ≡ decimal number }
    ensures short { length result.now ≡ 1 }
{
    let at = number as usize * 2 + 1;
    &PAIRS[at..at + 1]
}

/// The two digits of a number below a hundred.
#[inline(always)]
fn pair(number: u64) -> &'static str
    requires { number < 100 }
    ensures digits { result.now ≡ (48 + number / 10) ∷ (48 + number % 10) ∷ [] }
    ensures short { length result.now ≡ 2 }
{
    let at = number as usize * 2;
    &PAIRS[at..at + 2]
}

/// Puts a number below a hundred behind a line.
#[inline(always)]
fn put_first(line: &mut Line, number: u64)
    requires room { array_string_len line.old + 2 ≤ 1024 }
    requires number { number < 100 }
    ensures text { line.new.bytes ≡ line.old.bytes ++ decimal number }
    ensures short { array_string_len line.new ≤ array_string_len line.old + 2 }
{
    if number < 10 {
        line.push_str(digit(number));
    } else {
        line.push_str(pair(number));
    }
}

/// Puts a number below 10,000 behind a line.
#[inline(always)]
fn put_short(line: &mut Line, number: u64)
    requires room { array_string_len line.old + 4 ≤ 1024 }
    requires number { number < 10000 }
    ensures text { line.new.bytes ≡ line.old.bytes ++ decimal number }
    ensures short { array_string_len line.new ≤ array_string_len line.old + 4 }
{
    if number < 100 {
        put_first(line, number);
    } else {
        put_first(line, number / 100);
        line.push_str(pair(number % 100));
    }
}

/// Puts a number of any length behind a line.
#[inline(never)]
fn put_long(line: &mut Line, number: u64)
    requires { array_string_len line.old + 20 ≤ 1024 }
    ensures text { line.new.bytes ≡ line.old.bytes ++ decimal number }
    ensures short { array_string_len line.new ≤ array_string_len line.old + 20 }
{
    let mut buffer = Buffer::new();
    line.push_str(buffer.format(number));
}

/// Puts a number behind a line, whatever its length.
#[inline(never)]
fn put_more(line: &mut Line, number: u64)
    requires { array_string_len line.old + 20 ≤ 1024 }
    ensures text { line.new.bytes ≡ line.old.bytes ++ decimal number }
    ensures short { array_string_len line.new ≤ array_string_len line.old + 20 }
{
    if number < 10_000 {
        put_short(line, number);
    } else if number < 100_000_000 {
        put_short(line, number / 10_000);
        line.push_str(pair(number / 100 % 100));
        line.push_str(pair(number % 100));
    } else {
        put_long(line, number);
    }
}

/// Puts a number behind a line, in decimal.
#[inline(always)]
pub(crate) fn put_number(line: &mut Line, number: u64)
    requires { array_string_len line.old + 20 ≤ 1024 }
    ensures text { line.new.bytes ≡ line.old.bytes ++ decimal number }
    ensures short { array_string_len line.new ≤ array_string_len line.old + 20 }
{
    if number < 10 {
        line.push_str(digit(number));
    } else {
        put_more(line, number);
    }
}

/// Pushes a line behind a text, and empties it.
#[inline(always)]
pub(crate) fn push_line(text: &mut String, line: &mut Line) -> Result<(), AllocError>
    ensures text { OnOk result (string_bytes text.new ≡ string_bytes text.old ++ line.old.bytes) }
    ensures line { OnOk result (line.new.bytes ≡ []) }
{
    text.push_str(line.as_str())?;
    line.clear();
    Ok(())
}

/// Puts a number behind a line: one below 65,536 in decimal, any other in hexadecimal.
#[inline(always)]
pub(crate) fn put_value(line: &mut Line, number: u64)
    requires { array_string_len line.old + 20 ≤ 1024 }
    ensures text { line.new.bytes ≡ line.old.bytes ++ number_text number }
    ensures short { array_string_len line.new ≤ array_string_len line.old + 20 }
{
    if number < LEAST_HEXADECIMAL {
        put_number(line, number);
    } else {
        put_hexadecimal(line, number);
    }
}
