//! Texts with which lines of a report may begin.

ghost use Rattle.std.specs.Prelude.{◌≡◌, ◌&&◌};
ghost use Rattle.std.specs.List.{list_all};
ghost use Rattle.command_words.specs.Words.{agree, is_hex_digit, may_begin};

/// Whether one of these begins as the other does, as far as that goes.
fn agree(text: &[u8], head: &[u8]) -> bool
    ensures { result ≡ agree text.now head.now }
{
    text.starts_with(head) || head.starts_with(text)
}

/// Whether a byte is a digit of hexadecimal, in lower case.
fn is_hex_digit(byte: u8) -> bool
    ensures { result ≡ is_hex_digit byte }
{
    byte.is_ascii_digit() || (97 <= byte && byte <= 102)
}

/// Whether a line of a report may begin with a text: an address in hexadecimal, `pages` or `thread`.
fn may_begin(text: &[u8]) -> bool
    ensures { result ≡ may_begin text.now }
{
    let hex = match text.first() {
        None => true,
        Some(byte) => is_hex_digit(*byte),
    };
    hex || agree(text, b"pages ") || agree(text, b"thread ")
}

/// Whether lines of a report may begin with each of some texts.
fn may_begin_each(texts: &[&str]) -> bool
    ensures { result ≡ list_all (λ t. may_begin t.now) texts.now }
{
    texts.iter().all(|text| may_begin(text.as_bytes()))
}

/// Whether lines of a report may begin with each of some texts and each of some others.
pub(crate) fn may_begin_all(texts: &[&str], others: &[&str]) -> bool
    ensures { result ≡ (list_all (λ t. may_begin t.now) texts.now && list_all (λ t. may_begin t.now) others.now) }
{
    may_begin_each(texts) && may_begin_each(others)
}
