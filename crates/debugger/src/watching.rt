//! Numbers in memory that are watched.

ghost use Rattle.std.specs.Prelude.{◌≡◌, IfOk, map};
ghost use Rattle.std.specs.List.{list_any};
ghost use Rattle.wasm_types.specs.Accesses.{access_width};
ghost use Rattle.wasm_types.specs.Widths.{width_of};
ghost use Rattle.event_core.specs.World.{world_of};
ghost use Rattle.debugger.specs.Watches.{is_change, is_changed, number_now, seen_now};

use debug_views::number_in;
use event_core::World;
use std::alloc::Global;
use wasm_types::{Access, Narrow, NoMemory, ValType, Width};
use wasm_world::{SharedSpace, ThreadState};

/// A number in memory that is watched, little-endian.
#[derive(Clone, Copy, Debug, PartialEq, Eq)]
pub struct WatchedNumber {
    /// Where its bytes begin.
    pub address: u32,
    /// How many bytes it has.
    pub width: Width,
    /// Where there is one, what is watched is whether the number is this one.
    pub value: Option<u64>,
}

/// A number that is watched, as it was where a run began.
#[derive(Clone, Copy, Debug)]
pub(crate) struct Seen {
    pub(crate) watched: WatchedNumber,
    pub(crate) number: u64,
}

/// An access of that width.
fn access_of(width: Width) -> Access
    ensures { access_width result ≡ width_of width }
{
    match width {
        Width::One => Access::Narrow(Narrow::I64Of8),
        Width::Two => Access::Narrow(Narrow::I64Of16),
        Width::Four => Access::Narrow(Narrow::I64Of32),
        Width::Eight => Access::Whole(ValType::I64),
    }
}

/// What a number in memory is.
fn number_now(world: &World<ThreadState<'_>, SharedSpace>, watched: WatchedNumber) -> u64
    ensures { result ≡ number_now (world_of world.now) watched }
{
    number_in(world, access_of(watched.width), watched.address).unwrap_or(0)
}

/// Whether what is watched of a number changes between these two.
fn is_change(value: Option<u64>, old: u64, new: u64) -> bool
    ensures { result ≡ is_change value old new }
{
    match value {
        None => old != new,
        Some(one) if old == one => new != one,
        Some(one) => new == one,
    }
}

/// Numbers that are watched, as they are now.
pub(crate) fn seen_now(
    alloc: Global,
    world: &World<ThreadState<'_>, SharedSpace>,
    watches: &[WatchedNumber],
) -> Result<Vec<Seen>, NoMemory>
    ensures { IfOk result (λ seen. seen.items ≡ map (seen_now (world_of world.now)) watches.now) }
{
    let mut seen = Vec::new(alloc);
    for watched in watches {
        let number = number_now(world, *watched);
        seen.push(Seen {
            watched: *watched,
            number,
        })?;
    }
    Ok(seen)
}

/// Whether what is watched of a number is other than it was.
fn is_changed(world: &World<ThreadState<'_>, SharedSpace>, seen: Seen) -> bool
    ensures { result ≡ is_changed (world_of world.now) seen }
{
    is_change(
        seen.watched.value,
        seen.number,
        number_now(world, seen.watched),
    )
}

/// Whether that is so of one of these numbers.
pub(crate) fn is_any_changed(world: &World<ThreadState<'_>, SharedSpace>, seen: &[Seen]) -> bool
    ensures { result ≡ list_any (is_changed (world_of world.now)) seen.now }
{
    seen.iter().any(|one| is_changed(world, *one))
}
