//! The objects that a thread's next event touches by the log, as variables.

ghost use Rattle.std.specs.Prelude.{◌≡◌, IfOk, map};
ghost use Rattle.rw_objects.specs.Counts.{count_at};
ghost use Rattle.adapter.specs.Versions.{version_item, versions_of};

use adapter_messages::{List, Text, Variable};
use log_pieces::Flat;
use rw_objects::{Entry, Found, Versions};
use std::alloc::Global;
use std::fmt::Write;
use wasm_types::NoMemory;

/// An object that is touched.
fn version_item(alloc: Global, versions: &Versions, found: Found) -> Result<Variable, NoMemory>
    ensures { IfOk result (λ item. item ≡ version_item (count_at versions.now) found) }
{
    let object = found.object();
    let count = versions.at(object);
    let version = count.version;
    let reads = count.reads;
    let mut name = String::new(alloc);
    write!(name, "object {object}")?;
    let mut text = String::new(alloc);
    write!(text, "version {version} reads {reads}, next {found}")?;
    Ok(Variable {
        name: Text::new(alloc, name.as_str())?,
        value: Text::new(alloc, text.as_str())?,
        reference: 0,
    })
}

/// Objects that are touched.
fn version_items(
    alloc: Global,
    versions: &Versions,
    all: &[Found],
) -> Result<List<Variable>, NoMemory>
    ensures { IfOk result (λ items. items ≡ map (version_item (count_at versions.now)) all.now) }
{
    let mut items = List::new(alloc);
    for found in all {
        items.push(version_item(alloc, versions, *found)?)?;
    }
    Ok(items)
}

/// The objects that an event of which this is claimed touches.
pub(crate) fn versions_of(
    alloc: Global,
    versions: &Versions,
    item: Option<Flat<Entry>>,
) -> Result<List<Variable>, NoMemory>
    ensures { IfOk result (λ items. items ≡ versions_of (count_at versions.now) item) }
{
    match item {
        Some(Flat::Known(entry)) => version_items(alloc, versions, entry.found.as_slice()),
        Some(Flat::Clash) | None => Ok(List::new(alloc)),
    }
}
