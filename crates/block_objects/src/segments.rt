//! Active segments.

ghost use Rattle.std.specs.Prelude.{◌≡◌, ◌+◌, ◌≤◌, length};
ghost use Rattle.block_objects.specs.Access.{overwrite};
ghost use Rattle.block_objects.specs.Memory.{value_bits};

use wasm_types::{Data, Value};

/// Writes a segment's bytes at its offset.
pub(crate) fn write_segment(bytes: &mut [u8], segment: &Data)
    requires { value_bits segment.now.offset + length segment.now.bytes ≤ length bytes.old }
    ensures { bytes.new ≡ overwrite (value_bits segment.now.offset) segment.now.bytes bytes.old }
{
    let at = match segment.offset {
        Value::I32(offset) => offset as usize,
        Value::I64(offset) => offset as usize,
    };
    let new = segment.bytes.as_slice();
    bytes[at..at + new.len()].copy_from_slice(new);
}
