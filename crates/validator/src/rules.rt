//! The rules of a module, outside its function bodies.

ghost use Rattle.std.specs.Prelude.{◌≡◌, List, nat_lt, nat_le, ◌&&◌, is_ok, is_none};
ghost use Rattle.std.specs.List.{list_all};
ghost use Rattle.validator.specs.Module.{rules, types_fit, is_short, functions_fit, is_there, limits_fit, tables_fit, is_bounded, memory_fits, import_fits, memories, memories_fit, global_fits, globals_fit, export_fits, exports_fit, start_fits, element_fits, elements_fit, data_fits, data_fit};

use crate::module_cause::{ModuleCause, numbered};
use crate::table::type_of_function;
use wasm_types::{
    Data, Element, Export, ExportKind, Limits, MOST_PAGES, MemoryType, Module, ValType,
};

/// Tests whether a module keeps the rules, but for the distinct names of its exports: the first one that it breaks.
pub(crate) fn keeps_rules(module: &Module) -> Result<(), ModuleCause>
    ensures { is_ok result ≡ rules module.now }
{
    fit_types(module)?;
    fit_functions(module)?;
    fit_tables(module)?;
    fit_memories(module)?;
    fit_globals(module)?;
    fit_exports(module)?;
    fits_start(module)?;
    fit_elements(module)?;
    fit_data(module)
}

fn fit_types(module: &Module) -> Result<(), ModuleCause>
    ensures { is_ok result ≡ types_fit module.now }
{
    for (number, kind) in module.types.as_slice().iter().enumerate() {
        let results = kind.results.as_slice().len();
        if results > 1 {
            return Err(ModuleCause::Results {
                number: numbered(number),
                results,
            });
        }
    }
    Ok(())
}

fn fit_functions(module: &Module) -> Result<(), ModuleCause>
    ensures { is_ok result ≡ functions_fit module.now }
{
    let count = module.types.as_slice().len();
    let functions = module.functions.as_slice();
    let bodies = module.bodies.as_slice().len();
    if let Some((function, number)) = first_missing(functions, count) {
        return Err(ModuleCause::FunctionType {
            function,
            number,
            count,
        });
    }
    if functions.len() != bodies {
        return Err(ModuleCause::Bodies {
            functions: functions.len(),
            bodies,
        });
    }
    if functions.len() > u32::MAX as usize {
        return Err(ModuleCause::Functions(functions.len()));
    }
    are_short(module)
}

fn are_short(module: &Module) -> Result<(), ModuleCause>
    ensures { is_ok result ≡ list_all is_short module.now.bodies }
{
    for (function, body) in module.bodies.as_slice().iter().enumerate() {
        let count = body.code.as_slice().len();
        if count > u32::MAX as usize {
            return Err(ModuleCause::Instructions {
                function: numbered(function),
                count,
            });
        }
    }
    Ok(())
}

// The first of some indices that is not below a number, behind its place.
fn first_missing(indices: &[u32], bound: usize) -> Option<(u32, u32)>
    ensures { is_none result ≡ list_all (λ index. nat_lt index bound) indices.now }
{
    for (place, index) in indices.iter().enumerate() {
        if *index as usize >= bound {
            return Some((numbered(place), *index));
        }
    }
    None
}

fn fits_limits(limits: Limits) -> Result<(), ModuleCause>
    ensures { is_ok result ≡ limits_fit limits }
{
    let minimum = limits.minimum;
    let Some(maximum) = limits.maximum else {
        return Ok(());
    };
    if maximum < minimum {
        return Err(ModuleCause::Limits { minimum, maximum });
    }
    Ok(())
}

fn fit_tables(module: &Module) -> Result<(), ModuleCause>
    ensures { is_ok result ≡ tables_fit module.now }
{
    let tables = module.tables.as_slice();
    if tables.len() > 1 {
        return Err(ModuleCause::Tables(tables.len()));
    }
    are_limits(tables)
}

fn are_limits(tables: &[Limits]) -> Result<(), ModuleCause>
    ensures { is_ok result ≡ list_all limits_fit tables.now }
{
    for table in tables {
        fits_limits(*table)?;
    }
    Ok(())
}

fn fits_memory(memory: MemoryType) -> Result<(), ModuleCause>
    ensures { is_ok result ≡ memory_fits memory }
{
    let limits = memory.limits;
    fits_limits(limits)?;
    let Some(most) = limits.maximum else {
        return fits_least(limits.minimum, memory.shared);
    };
    if most > MOST_PAGES {
        return Err(ModuleCause::Pages(most));
    }
    Ok(())
}

// Whether a memory without a greatest size may have this least one.
fn fits_least(minimum: u32, shared: bool) -> Result<(), ModuleCause>
    ensures { is_ok result ≡ (nat_le minimum MOST_PAGES && is_bounded shared None) }
{
    if minimum > MOST_PAGES {
        return Err(ModuleCause::Pages(minimum));
    }
    if shared {
        return Err(ModuleCause::Unbounded);
    }
    Ok(())
}

fn fit_memories(module: &Module) -> Result<(), ModuleCause>
    ensures { is_ok result ≡ memories_fit module.now }
{
    let imports = module.imports.as_slice();
    let memories = module.memories.as_slice();
    if imports.len() > 1 || memories.len() > 1 - imports.len() {
        return Err(ModuleCause::Memories(imports.len().saturating_add(memories.len())));
    }
    fit_imports(module)?;
    fit_own_memories(memories)
}

fn fit_imports(module: &Module) -> Result<(), ModuleCause>
    ensures { is_ok result ≡ list_all import_fits module.now.imports }
{
    for import in module.imports.as_slice() {
        fits_memory(import.memory)?;
    }
    Ok(())
}

fn fit_own_memories(memories: &[MemoryType]) -> Result<(), ModuleCause>
    ensures { is_ok result ≡ list_all memory_fits memories.now }
{
    for memory in memories {
        fits_memory(*memory)?;
    }
    Ok(())
}

fn fit_globals(module: &Module) -> Result<(), ModuleCause>
    ensures { is_ok result ≡ globals_fit module.now }
{
    for (number, global) in module.globals.as_slice().iter().enumerate() {
        if !global.value.val_type().is_same(global.val_type) {
            return Err(ModuleCause::GlobalValue(numbered(number)));
        }
    }
    Ok(())
}

// Whether a memory is there, imported or the module's own.
fn is_memory(module: &Module, index: u32) -> bool
    ensures { result ≡ nat_lt index (memories module.now) }
{
    let at = index as usize;
    let imported = module.imports.as_slice().len();
    at < imported || at - imported < module.memories.as_slice().len()
}

fn fits_export(module: &Module, export: &Export) -> bool
    ensures { result ≡ export_fits module.now export.now }
{
    let at = export.index as usize;
    match export.kind {
        ExportKind::Function => at < module.functions.as_slice().len(),
        ExportKind::Table => at < module.tables.as_slice().len(),
        ExportKind::Memory => is_memory(module, export.index),
        ExportKind::Global => at < module.globals.as_slice().len(),
    }
}

fn fit_exports(module: &Module) -> Result<(), ModuleCause>
    ensures { is_ok result ≡ exports_fit module.now }
{
    for (number, export) in module.exports.as_slice().iter().enumerate() {
        if !fits_export(module, export) {
            return Err(ModuleCause::Export {
                export: numbered(number),
                kind: export.kind,
                index: export.index,
            });
        }
    }
    Ok(())
}

fn fits_start(module: &Module) -> Result<(), ModuleCause>
    ensures { is_ok result ≡ start_fits module.now }
{
    let Some(function) = module.start else {
        return Ok(());
    };
    let Some(kind) = type_of_function(module, function) else {
        return Err(ModuleCause::StartMissing(function));
    };
    if !kind.params.as_slice().is_empty() || !kind.results.as_slice().is_empty() {
        return Err(ModuleCause::StartType(function));
    }
    Ok(())
}

fn fits_element(module: &Module, segment: usize, element: &Element) -> Result<(), ModuleCause>
    ensures { is_ok result ≡ element_fits module.now element.now }
{
    if element.table as usize >= module.tables.as_slice().len() {
        return Err(ModuleCause::ElementTable {
            segment: numbered(segment),
            table: element.table,
        });
    }
    if !element.offset.val_type().is_same(ValType::I32) {
        return Err(ModuleCause::ElementOffset(numbered(segment)));
    }
    let count = module.functions.as_slice().len();
    if let Some((_, function)) = first_missing(element.functions.as_slice(), count) {
        return Err(ModuleCause::ElementFunction {
            segment: numbered(segment),
            function,
            count,
        });
    }
    Ok(())
}

fn fit_elements(module: &Module) -> Result<(), ModuleCause>
    ensures { is_ok result ≡ elements_fit module.now }
{
    for (segment, element) in module.elements.as_slice().iter().enumerate() {
        fits_element(module, segment, element)?;
    }
    Ok(())
}

fn fits_data(module: &Module, segment: usize, data_segment: &Data) -> Result<(), ModuleCause>
    ensures { is_ok result ≡ data_fits module.now data_segment.now }
{
    if !is_memory(module, data_segment.memory) {
        return Err(ModuleCause::DataMemory {
            segment: numbered(segment),
            memory: data_segment.memory,
        });
    }
    if !data_segment.offset.val_type().is_same(ValType::I32) {
        return Err(ModuleCause::DataOffset(numbered(segment)));
    }
    Ok(())
}

fn fit_data(module: &Module) -> Result<(), ModuleCause>
    ensures { is_ok result ≡ data_fit module.now }
{
    for (number, segment) in module.data.as_slice().iter().enumerate() {
        fits_data(module, number, segment)?;
    }
    Ok(())
}
