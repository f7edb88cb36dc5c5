//! Integers in decimal.

ghost use Rattle.std.specs.Prelude.{◌≡◌, true};
ghost use Rattle.std.specs.Char.{is_ascii_digit};
ghost use Rattle.std.specs.List.{list_all};
ghost use Rattle.std.specs.Str.Parse.{signed_digits_value, starts_with_minus};
ghost use Rattle.text_lines.specs.Integers.{is_positive, is_decimal, bits_of};

/// Whether a text is that of an integer: `0`, or perhaps `-` and then digits, the first of which is not 0.
pub fn is_integer(text: &[u8]) -> bool
    ensures { result ≡ is_decimal text.now }
{
    match text {
        [b'0'] => true,
        [b'-', digits @ ..] => has_positive(digits),
        digits => has_positive(digits),
    }
}

// Whether a text is of digits, the first of which is not 0.
fn has_positive(text: &[u8]) -> bool
    ensures { result ≡ is_positive text.now }
{
    match text {
        [] => false,
        [first, ..] => *first != b'0' && are_digits(text),
    }
}

// Whether each byte is a digit.
fn are_digits(text: &[u8]) -> bool
    ensures { result ≡ list_all is_ascii_digit text.now }
{
    text.iter().all(|byte| byte.is_ascii_digit())
}

// Whether a text begins with `-`.
fn is_negative(text: &[u8]) -> bool
    ensures { result ≡ starts_with_minus text.now }
{
    match text {
        [b'-', ..] => true,
        _ => false,
    }
}

/// An integer from -2^31 to 2^32 - 1, modulo 2^32; None where it is another.
pub fn bits_32(text: &[u8]) -> Option<u32>
    requires { is_decimal text.now ≡ true }
    ensures { result ≡ bits_of 32 (signed_digits_value 10 text.now) }
{
    let Ok(decimal) = str::from_utf8(text) else {
        return None;
    };
    if !is_negative(text) {
        return decimal.parse::<u32>().ok();
    }
    match decimal.parse::<i32>() {
        Ok(number) => Some(number.cast_unsigned()),
        Err(_) => None,
    }
}

/// An integer from -2^63 to 2^64 - 1, modulo 2^64; None where it is another.
pub fn bits_64(text: &[u8]) -> Option<u64>
    requires { is_decimal text.now ≡ true }
    ensures { result ≡ bits_of 64 (signed_digits_value 10 text.now) }
{
    let Ok(decimal) = str::from_utf8(text) else {
        return None;
    };
    if !is_negative(text) {
        return decimal.parse::<u64>().ok();
    }
    match decimal.parse::<i64>() {
        Ok(number) => Some(number.cast_unsigned()),
        Err(_) => None,
    }
}
