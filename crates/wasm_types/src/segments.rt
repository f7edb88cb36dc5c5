//! Where the segments of a module go (WebAssembly Core 1.0, execution, instantiation).

ghost use Rattle.std.specs.Prelude.{◌≡◌, slice_get};
ghost use Rattle.wasm_types.specs.Memories.{first_memory, bytes_by};
ghost use Rattle.wasm_types.specs.Tables.{elements_by};
ghost use Rattle.wasm_types.specs.Segments.{is_within, data_is_within, elements_are_within, segments_fit};

use crate::memory::{first_memory, initial_pages};
use crate::modules::{Limits, Module};
use crate::sizes::PAGE_SIZE;
use crate::value::Value;

/// Whether each segment is within the memory or the table as it opens.
pub fn fit_segments(module: &Module) -> bool
    ensures { result ≡ segments_fit «module».now }
{
    fit_data(module) && fit_elements(module)
}

// The bytes of the memory as it opens.
fn initial_bytes(module: &Module) -> u64
    ensures { result ≡ bytes_by (first_memory «module».now) }
{
    u64::from(initial_pages(first_memory(module))) * PAGE_SIZE
}

// The elements of the first table as it opens.
fn initial_elements(tables: &[Limits]) -> u64
    ensures { result ≡ elements_by (slice_get tables.now 0) }
{
    match tables {
        [] => 0,
        [limits, ..] => u64::from(limits.minimum),
    }
}

fn fit_data(module: &Module) -> bool
    ensures { result ≡ data_is_within «module».now }
{
    let size = initial_bytes(module);
    let mut fit = true;
    for segment in module.data.as_slice() {
        fit &= fits(size, segment.offset, segment.bytes.as_slice().len());
    }
    fit
}

fn fit_elements(module: &Module) -> bool
    ensures { result ≡ elements_are_within «module».now }
{
    let size = initial_elements(module.tables.as_slice());
    let mut fit = true;
    for segment in module.elements.as_slice() {
        fit &= fits(size, segment.offset, segment.functions.as_slice().len());
    }
    fit
}

// Whether so many items from an offset on are within a size.
fn fits(size: u64, offset: Value, count: usize) -> bool
    ensures { result ≡ is_within size offset count }
{
    let start = offset.bits();
    start <= size && count as u64 <= size - start
}
