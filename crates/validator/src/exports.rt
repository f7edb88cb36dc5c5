//! The names of a module's exports.

ghost use Rattle.std.specs.Prelude.{◌≡◌, true, false, is_none, IfOk, OnOk, OnErr};
ghost use Rattle.indexmap.specs.IndexMap.{hasher_of};
ghost use Rattle.validator.specs.Exports.{distinct, function_index, value_of, AreNames, PutsNumber};

use crate::module_cause::{ModuleCause, numbered};
use crate::name_hasher::NameHasher;
use indexmap::{IndexMap, IndexSet};
use std::alloc::Global;
use wasm_types::{Export, ExportKind, NoMemory};

/// The number of each export whose name is UTF-8, by the name; or the first two exports that have one name. Each name
/// is hashed once, by the module's own hasher, so no names make it slow.
pub(crate) fn names_of(
    alloc: Global,
    hasher: NameHasher,
    exports: &[Export],
) -> Result<Result<IndexMap<String, u32, NameHasher>, ModuleCause>, NoMemory>
    ensures twice { IfOk result (λ found. OnErr found (distinct exports.now ≡ false)) }
    ensures distinct { IfOk result (λ found. OnOk found (distinct exports.now ≡ true)) }
    ensures names { IfOk result (λ found. IfOk found (λ names. AreNames names.entries exports.now)) }
    ensures hasher { IfOk result (λ found. IfOk found (λ names. hasher_of names ≡ hasher)) }
{
    let mut names = IndexMap::with_capacity_and_hasher(alloc, exports.len(), hasher)?;
    // The names that are not UTF-8. A decoded module has none, and the set then takes no memory.
    let mut others = IndexSet::with_hasher(alloc, hasher);
    for (number, export) in exports.iter().enumerate() {
        let name = export.name.as_slice();
        let is_new = match str::from_utf8(name) {
            Ok(text) => add_name(alloc, &mut names, text, number)?,
            Err(_) => others.insert(name)?,
        };
        if !is_new {
            return Ok(Err(same_name(exports, name, number)));
        }
    }
    Ok(Ok(names))
}

// The first export of the name of a later one.
#[cold]
fn same_name(exports: &[Export], name: &[u8], later: usize) -> ModuleCause {
    let second = numbered(later);
    for (number, export) in exports.iter().enumerate() {
        if export.name.as_slice() == name {
            return ModuleCause::SameName {
                first: numbered(number),
                second,
            };
        }
    }
    ModuleCause::SameName {
        first: second,
        second,
    }
}

// Puts the number of an export at its name; whether the name is new. The map has no room for more than `u32` numbers.
fn add_name(
    alloc: Global,
    names: &mut IndexMap<String, u32, NameHasher>,
    name: &str,
    number: usize,
) -> Result<bool, NoMemory>
    ensures is_new { IfOk result (λ is_new. is_new ≡ is_none (value_of names.old.entries name.now)) }
    ensures puts { OnOk result (PutsNumber names.old.entries name.now number names.new.entries) }
    ensures hasher { OnOk result (hasher_of names.new ≡ hasher_of names.old) }
{
    let Ok(number) = u32::try_from(number) else {
        return Err(NoMemory);
    };
    let name = String::from_str(alloc, name)?;
    Ok(names.insert(name, number)?.is_none())
}

/// The index of the function that is exported, if a function is.
pub(crate) fn function_of(export: &Export) -> Option<u32>
    ensures { result ≡ function_index export.now.kind export.now.index }
{
    match export.kind {
        ExportKind::Function => Some(export.index),
        _ => None,
    }
}
