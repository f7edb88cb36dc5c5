//! Words and numbers behind a text.

ghost use Rattle.std.specs.Prelude.{◌≡◌, ◌++◌, OnOk};
ghost use Rattle.std.specs.String.{string_bytes};
ghost use Rattle.replica.specs.Contradictions.{event_text};

use crate::EventAt;
use itoa::{Buffer, Integer};
use std::alloc::AllocError;

/// Puts a number behind a text.
pub(crate) fn put_number<I: Integer>(text: &mut String, number: I) -> Result<(), AllocError>
    ensures { OnOk result (string_bytes text.new ≡ string_bytes text.old ++ I.text number) }
{
    let mut buffer = Buffer::new();
    text.push_str(buffer.format(number))
}

/// Puts where an event stands behind a text.
pub(crate) fn put_event(text: &mut String, at: EventAt) -> Result<(), AllocError>
    ensures { OnOk result (string_bytes text.new ≡ string_bytes text.old ++ event_text at) }
{
    put_number(text, at.thread)?;
    text.push_str(".")?;
    put_number(text, at.place)
}
