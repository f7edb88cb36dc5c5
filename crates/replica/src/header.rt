//! The line with which the lines of an object begin.

ghost use Rattle.std.specs.Prelude.{◌≡◌, ◌++◌, OnOk};
ghost use Rattle.std.specs.String.{string_bytes};
ghost use Rattle.replica.specs.Objects.{object_text};
ghost use Rattle.replica.specs.Chosen.{header_line};

use crate::object_text;
use crate::object_texts::put_number;
use std::alloc::AllocError;
use wasm_types::Block;

/// Puts the line that says which bytes an object is behind a text.
pub(crate) fn put_header(text: &mut String, block: Block, object: u32) -> Result<(), AllocError>
    ensures { OnOk result (string_bytes text.new ≡ string_bytes text.old ++ header_line (object_text block) object) }
{
    text.push_str("object ")?;
    put_number(text, object)?;
    text.push_str(": ")?;
    text.push_str(&object_text(block, object))?;
    text.push_str("\n")
}
