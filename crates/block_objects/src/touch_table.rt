//! The objects that an operation touches.

ghost use Rattle.std.specs.Prelude.{◌≡◌, ◌+◌, ◌-◌, ◌^◌, ◌<◌, ◌≤◌, [], ◌∷◌, ◌++◌, length};
ghost use Rattle.block_objects.specs.Objects.{block_of, block_object, queue_object};
ghost use Rattle.block_objects.specs.Touches.{touch_of, length_touches, access_touches, lone_object, queue_touches, wait_touches, op_touches, op_kind};
ghost use Rattle.rw_objects.specs.declared.touch.Mode.TheVariants.{Write};
ghost use Rattle.wasm_types.specs.Accesses.{access_width};
ghost use Rattle.wasm_types.specs.Widths.{width_of};
ghost use Rattle.std.specs.Int.{byte_len};

use crate::bounds::ends_within;
use rw_objects::{Kind, Mode, Touch, Touches};
use std::alloc::Global;
use wasm_types::{Access, Action, Block, Extent, Op, Width};

/// The block of a byte.
fn block_index(block: Block, byte: u64) -> u32
    requires { byte < 2 ^ 33 }
    ensures index { result ≡ block_of block byte }
    ensures below { result < 2 ^ 27 }
{
    (byte >> block.power()) as u32
}

/// The block of an address.
pub fn block_number(block: Block, address: u32) -> u32
    ensures { result ≡ block_of block address }
{
    block_index(block, u64::from(address))
}

/// The object of the block of an address.
fn block_at(block: Block, address: u32) -> u32
    ensures { result ≡ block_object (block_of block address) }
{
    1 + 2 * block_index(block, u64::from(address))
}

/// The object of the waiter queue of the block of an address.
fn queue_at(block: Block, address: u32) -> u32
    ensures { result ≡ queue_object (block_of block address) }
{
    2 + 2 * block_index(block, u64::from(address))
}

/// The object of the block of the last of some bytes at an address.
fn last_block(block: Block, address: u32, len: u32) -> u32
    requires some { 0 < len }
    requires few { len ≤ 8 }
    ensures { result ≡ block_object (block_of block (address + len - 1)) }
{
    1 + 2 * block_index(block, u64::from(address) + u64::from(len) - 1)
}

/// The object of the block in which all of some bytes at an address lie, if they lie in one block and end within the
/// initial length: an access of them touches this object alone.
#[inline(always)]
pub fn lone_block(extent: &Extent, address: u32, len: u32) -> Option<u32>
    requires some { 0 < len }
    requires few { len ≤ 8 }
    ensures { result ≡ lone_object extent.now address len }
{
    let first = block_index(extent.block, u64::from(address));
    let last = block_index(extent.block, u64::from(address) + u64::from(len) - 1);
    if first == last && ends_within(extent.initial, address, len) {
        Some(1 + 2 * first)
    } else {
        None
    }
}

/// The touch of the length, where so many bytes at an address end past the initial length.
fn touch_length(alloc: Global, extent: &Extent, address: u32, len: u32) -> Touches
    ensures touches { result ≡ length_touches extent.now address len }
    ensures room { length result ≤ 1 }
{
    let mut touches = Touches::new(alloc);
    if !ends_within(extent.initial, address, len) {
        touches.push(Touch {
            object: 0,
            mode: Mode::Read,
        });
    }
    touches
}

/// The touches of an access.
fn touch_access(alloc: Global, extent: &Extent, mode: Mode, address: u32, width: Width) -> Touches
    ensures { result ≡ access_touches extent.now mode address (byte_len (width_of width)) }
{
    let first = block_at(extent.block, address);
    let last = last_block(extent.block, address, width.bytes());
    let touch = Touch {
        object: first,
        mode,
    };
    if first == last && ends_within(extent.initial, address, width.bytes()) {
        return Touches::one(alloc, touch);
    }
    let mut touches = touch_length(alloc, extent, address, width.bytes());
    touches.push(touch);
    if first != last {
        touches.push(Touch { object: last, mode });
    }
    touches
}

/// The touches of an access that writes.
fn touch_write(alloc: Global, extent: &Extent, address: u32, access: Access) -> Touches
    ensures { result ≡ access_touches extent.now Write address (byte_len (access_width access)) }
{
    touch_access(alloc, extent, Mode::Write, address, access.width())
}

/// Pushes a write of the waiter queue of an address.
fn touch_queue(touches: &mut Touches, extent: &Extent, address: u32)
    requires { length touches.old < 3 }
    ensures { touches.new ≡ touches.old ++ queue_touches extent.now address }
{
    touches.push(Touch {
        object: queue_at(extent.block, address),
        mode: Mode::Write,
    });
}

/// The objects that an operation touches, 1 to 3 of them, in rising order. It takes no memory.
pub fn touches(alloc: Global, op: &Op) -> Touches
    ensures { result ≡ op_touches op.now }
{
    let extent = &op.extent;
    match op.action {
        Action::Load { load, address } => {
            touch_access(alloc, extent, Mode::Read, address, load.width())
        }
        Action::Store {
            access,
            address,
            ..
        } => touch_write(alloc, extent, address, access),
        Action::Rmw {
            access,
            address,
            ..
        } => touch_write(alloc, extent, address, access),
        Action::CompareExchange {
            access,
            address,
            ..
        } => touch_write(alloc, extent, address, access),
        Action::Size => touch_of_length(alloc, Mode::Read),
        Action::Grow { .. } => touch_of_length(alloc, Mode::Write),
        Action::Wait { width, address, .. } => { touch_wait(alloc, extent, address, width.width()) }
        Action::Notify { address, .. } => {
            let mut touches = touch_length(alloc, extent, address, 4);
            touch_queue(&mut touches, extent, address);
            touches
        }
        Action::Resume { address, .. } => touch_of_queue(alloc, extent, address),
        Action::TimeOut { address, .. } => touch_of_queue(alloc, extent, address),
    }
}

/// The touch of the length alone.
fn touch_of_length(alloc: Global, mode: Mode) -> Touches
    ensures { result ≡ touch_of mode 0 ∷ [] }
{
    Touches::one(alloc, Touch { object: 0, mode })
}

/// The touch of a waiter queue alone.
fn touch_of_queue(alloc: Global, extent: &Extent, address: u32) -> Touches
    ensures { result ≡ queue_touches extent.now address }
{
    let mut touches = Touches::new(alloc);
    touch_queue(&mut touches, extent, address);
    touches
}

/// The touches of a wait.
fn touch_wait(alloc: Global, extent: &Extent, address: u32, width: Width) -> Touches
    ensures { result ≡ wait_touches extent.now address (byte_len (width_of width)) }
{
    let mut touches = touch_length(alloc, extent, address, width.bytes());
    touches.push(Touch {
        object: block_at(extent.block, address),
        mode: Mode::Read,
    });
    touch_queue(&mut touches, extent, address);
    touches
}

/// The kind of an operation's entry: going on after being woken, and a time-out, have kinds of their own.
pub fn kind(op: &Op) -> Kind
    ensures { result ≡ op_kind op.now }
{
    match op.action {
        Action::Resume { .. } => Kind::Woken,
        Action::TimeOut { .. } => Kind::TimedOut,
        _ => Kind::Access,
    }
}
