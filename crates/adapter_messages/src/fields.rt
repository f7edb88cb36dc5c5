//! What a line of a header says.

ghost use Rattle.std.specs.Prelude.{◌≡◌, ◌<◌, ◌==◌, length, position, IfSome};
ghost use Rattle.std.specs.Char.{is_ascii_digit};
ghost use Rattle.std.specs.List.{list_all};
ghost use Rattle.adapter_messages.specs.Fields.{is_numeral, length_of, named, split_field, field_of, field_in};

/// The most bytes of a content.
pub const LARGEST_CONTENT: u32 = 1_048_576;

/// The name of the field that is wanted, in small letters.
const CONTENT_LENGTH: &[u8] = b"content-length";

/// What a line of a header says.
#[derive(Clone, Copy, Debug, PartialEq, Eq)]
pub(crate) enum Field {
    /// Nothing: the header ends here.
    End,
    /// That the content has so many bytes.
    Length(u32),
    /// Something else, which is passed over.
    Other,
    /// That the content has more bytes than are taken.
    TooLong,
    /// It is no field, or gives no length.
    Broken,
}

/// Whether each byte is a digit.
fn are_digits(text: &[u8]) -> bool
    ensures { result ≡ list_all is_ascii_digit text.now }
{
    text.iter().all(|byte| byte.is_ascii_digit())
}

/// Whether a text is of digits, and of at least one.
fn is_numeral(text: &[u8]) -> bool
    ensures { result ≡ is_numeral text.now }
{
    match text {
        [] => false,
        [_, ..] => are_digits(text),
    }
}

/// What digits say of the length of a content.
fn length_of(digits: &[u8]) -> Field
    ensures { result ≡ length_of digits.now }
{
    if !is_numeral(digits) {
        return Field::Broken;
    }
    let Ok(numeral) = str::from_utf8(digits) else {
        return Field::Broken;
    };
    match numeral.parse::<u32>() {
        Ok(length) if length <= LARGEST_CONTENT => Field::Length(length),
        _ => Field::TooLong,
    }
}

/// What a name says with the value behind it.
fn named(name: &[u8], value: &[u8]) -> Field
    ensures { result ≡ named name.now value.now }
{
    if !name.eq_ignore_ascii_case(CONTENT_LENGTH) {
        return Field::Other;
    }
    match value {
        [b' ', digits @ ..] => length_of(digits),
        digits => length_of(digits),
    }
}

/// Where the first colon stands.
fn colon_in(line: &[u8]) -> Option<usize>
    ensures place { result ≡ position (λ c. c == 58) line.now }
    ensures within { IfSome result (λ k. k < length line.now) }
{
    line.iter().position(|byte| *byte == b':')
}

/// What a line says that is not empty.
fn split_field(line: &[u8]) -> Field
    ensures { result ≡ split_field line.now (position (λ c. c == 58) line.now) }
{
    let Some(colon) = colon_in(line) else {
        return Field::Broken;
    };
    let (name, behind) = line.split_at(colon);
    match behind {
        [_, value @ ..] => named(name, value),
        [] => Field::Broken,
    }
}

/// What a line without its end says.
fn field_of(line: &[u8]) -> Field
    ensures { result ≡ field_of line.now }
{
    match line {
        [] => Field::End,
        [_, ..] => split_field(line),
    }
}

/// What a line with its carriage return says.
pub(crate) fn field_in(line: &[u8]) -> Field
    ensures { result ≡ field_in line.now }
{
    match line {
        [front @ .., b'\r'] => field_of(front),
        _ => Field::Broken,
    }
}
