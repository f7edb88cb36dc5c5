//! The table with which a module opens (WebAssembly Core 1.0, execution, instantiation).

ghost use Rattle.std.specs.Prelude.{◌≡◌, ◌+◌, ◌≤◌, true, length, slice_get, IfOk};
ghost use Rattle.wasm_types.specs.Segments.{elements_are_within};
ghost use Rattle.wasm_types.specs.Tables.{with_functions, empty_by, opening_table};

use crate::modules::{Limits, Module};
use crate::no_memory::NoMemory;
use std::alloc::Global;

/// Puts functions into a table from a place on.
fn put_functions(table: &mut Vec<Option<u32>>, at: usize, functions: &[u32])
    requires { at + length functions.now ≤ length table.old.items }
    ensures { table.new.items ≡ with_functions at functions.now table.old.items }
{
    for index in 0..functions.len() {
        table[at + index] = Some(functions[index]);
    }
}

/// A table without functions.
fn empty_table(alloc: Global, tables: &[Limits]) -> Result<Vec<Option<u32>>, NoMemory>
    ensures { IfOk result (λ table. table.items ≡ empty_by (slice_get tables.now 0)) }
{
    match tables {
        [] => Ok(Vec::new(alloc)),
        [limits, ..] => {
            let empty: Option<u32> = None;
            Ok(vec![in alloc; empty; limits.minimum as usize]?)
        }
    }
}

/// The table with which a module opens: its segments are written in order.
pub fn first_table(alloc: Global, module: &Module) -> Result<Vec<Option<u32>>, NoMemory>
    requires { elements_are_within «module».now ≡ true }
    ensures { IfOk result (λ table. table.items ≡ opening_table «module».now) }
{
    let mut table = empty_table(alloc, module.tables.as_slice())?;
    for element in module.elements.as_slice() {
        let at = element.offset.bits();
        put_functions(&mut table, at as usize, element.functions.as_slice());
    }
    Ok(table)
}
