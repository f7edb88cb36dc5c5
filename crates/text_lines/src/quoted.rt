//! Quoted bytes.

ghost use Rattle.std.specs.Prelude.{◌≡◌, ◌<◌, take};
ghost use Rattle.text_lines.specs.Quotes.{shown, rest, quoted};

use arrayvec::ArrayString;
use std::fmt;

/// The most bytes that are shown.
const MOST_SHOWN: usize = 40;

/// Bytes, perhaps of no text. They are shown by the first 40, in which `?` stands for each byte that is no visible
/// character of ASCII and no space, and `..` where there are more.
#[derive(Clone, Copy, Debug)]
pub struct Quoted<'a> {
    pub bytes: &'a [u8],
}

/// The character that stands for a byte.
fn shown(byte: u8) -> char
    ensures shown { result ≡ shown byte }
    ensures ascii { result < 128 }
{
    match byte {
        0x20..=0x7E => char::from(byte),
        _ => '?',
    }
}

/// The bytes that are shown.
fn first(bytes: &[u8]) -> &[u8]
    ensures { result.now ≡ take MOST_SHOWN bytes.now }
{
    if bytes.len() > MOST_SHOWN {
        &bytes[..MOST_SHOWN]
    } else {
        bytes
    }
}

/// What stands for the bytes that are not shown.
fn rest(bytes: &[u8]) -> &'static str
    ensures { result.now ≡ rest bytes.now }
{
    if bytes.len() > MOST_SHOWN { ".." } else { "" }
}

impl<'a> Quoted<'a> {
    /// The text that is shown: the first 40 bytes, and `..` where there are more. It takes no memory.
    pub fn text(&self) -> ArrayString<42>
        ensures { result.bytes ≡ quoted self.now.bytes.now }
    {
        let mut text = ArrayString::<42>::new();
        for byte in first(self.bytes) {
            text.push(shown(*byte));
        }
        text.push_str(rest(self.bytes));
        text
    }
}

impl<'a> fmt::Display for Quoted<'a> {
    ghost use Rattle.std.specs.Prelude.{Some};
    ghost use Rattle.text_lines.specs.Quotes.{quoted};

    ghost output = { λ q. Some (quoted q.bytes.now) };

    fn fmt<W: fmt::Write>(&self, f: &mut fmt::Formatter<W>) -> fmt::Result {
        f.write_str(self.text().as_str())
    }
}
