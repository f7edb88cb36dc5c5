//! Which bytes of the memory objects are, as text.

ghost use Rattle.std.specs.Prelude.{◌≡◌, ◌+◌, ◌*◌, ◌<◌, ◌≤◌, ◌^◌, ◌++◌, length};
ghost use Rattle.std.specs.Fmt.{decimal};
ghost use Rattle.arrayvec.specs.ArrayString.{array_string_len};
ghost use Rattle.replica.specs.Objects.{block_first, range_text, object_text, touched_text, touches_text, objects_text};

use crate::room::Room;
use arrayvec::ArrayString;
use itoa::Buffer;
use log_pieces::{Flat, PackedClaim};
use rw_objects::Entry;
use wasm_types::Block;

/// Puts a number behind a text.
fn put_number(text: &mut ArrayString<50>, number: u64)
    requires { array_string_len text.old + 20 ≤ 50 }
    ensures text { text.new.bytes ≡ text.old.bytes ++ decimal number }
    ensures short { array_string_len text.new ≤ array_string_len text.old + 20 }
{
    let mut buffer = Buffer::new();
    text.push_str(buffer.format(number));
}

/// Puts the first and the last byte of so many behind a text.
fn put_range(text: &mut ArrayString<50>, first: u64, size: u32)
    requires text { array_string_len text.old ≤ 8 }
    requires size { 1 ≤ size }
    requires first { first < 2 ^ 63 }
    ensures { text.new.bytes ≡ text.old.bytes ++ range_text first size }
{
    put_number(text, first);
    text.push_str("..");
    put_number(text, first + u64::from(size) - 1);
}

/// The first byte of the block that an object is, or is the queue of.
fn block_first(size: u32, object: u32) -> u64
    requires { 1 ≤ object }
    ensures first { result ≡ block_first size object }
    ensures bound { result < 2 ^ 63 }
{
    u64::from((object - 1) / 2) * u64::from(size)
}

/// Which bytes of the memory an object is, as text. It takes no memory.
pub fn object_text(block: Block, object: u32) -> ArrayString<50>
    ensures { result.bytes ≡ object_text block object }
{
    let mut text = ArrayString::<50>::new();
    if object == 0 {
        text.push_str("length");
        return text;
    }
    if (object - 1) % 2 == 0 {
        text.push_str("bytes ");
    } else {
        text.push_str("waiters ");
    }
    let size = block.size();
    put_range(&mut text, block_first(size, object), size);
    text
}

/// Puts which bytes an object is behind other bytes.
fn put_object(room: &mut Room, block: Block, object: u32)
    requires { length room.old + 50 ≤ 66560 }
    ensures text { room.new ≡ room.old ++ object_text block object }
    ensures short { length room.new ≤ length room.old + 50 }
{
    let text = object_text(block, object);
    room.put(text.as_bytes());
}

/// Puts which object is touched, and which bytes it is, behind other bytes.
fn put_touched(room: &mut Room, block: Block, object: u32)
    requires { length room.old + 74 ≤ 66560 }
    ensures text { room.new ≡ room.old ++ touched_text block object }
    ensures short { length room.new ≤ length room.old + 74 }
{
    room.put(b"; ");
    room.put_number(u64::from(object));
    room.put(b": ");
    put_object(room, block, object);
}

/// Puts which bytes the objects are that an entry touches behind other bytes.
fn put_touches(room: &mut Room, block: Block, entry: &Entry)
    requires { length room.old + 222 ≤ 66560 }
    ensures text { room.new ≡ room.old ++ touches_text block entry.now }
    ensures short { length room.new ≤ length room.old + 222 }
{
    for found in entry.found.as_slice() {
        put_touched(room, block, found.object());
    }
}

/// Puts which bytes the objects of an item are behind other bytes, where a block is given to tell them by.
pub(crate) fn put_objects(room: &mut Room, blocks: &Option<Block>, claim: &PackedClaim<'_, Entry>)
    requires { length room.old + 222 ≤ 66560 }
    ensures text { room.new ≡ room.old ++ objects_text blocks.now claim.now }
    ensures short { length room.new ≤ length room.old + 222 }
{
    if let Some(block) = blocks {
        match claim.claim(room.allocator()) {
            Flat::Known(entry) => put_touches(room, *block, &entry),
            Flat::Clash => {}
        }
    }
}
