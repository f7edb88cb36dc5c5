//! The sections of a module.

ghost use Rattle.std.specs.Prelude.{◌≡◌, [], None, map, option_map, true};
ghost use Rattle.binary_decoder.specs.Reading.{vector_at, byte_vector_at, end_at};
ghost use Rattle.binary_decoder.specs.Moves.{Moves, MovesBy, Gives};
ghost use Rattle.wasm_types.specs.Limits.{params_of};
ghost use Rattle.binary_decoder.specs.Reader.{behind_custom_at, skipped, content_at, opening_at, section_at, start_at, code_at, end_sections_at, after_code_at, code_slot_at, after_start_at, after_memories_at, sections_at};

use crate::cause::{Cause, Expected, SectionFault};
use crate::cursor::Cursor;
use crate::fault::{DecodeFault, clamped};
use crate::functions::code;
use crate::order::unexpected;
use crate::parts::{Spelled, vector};
use crate::place::ModulePart;
use std::alloc::Global as Alloc;
use wasm_types::{
    Body, Data, Element, Export, FuncType, Global, Import, Items, Limits, MemoryType,
};

/// A section that was found: the offset of its id, and its content.
#[derive(Clone, Copy)]
struct Section<'a> {
    start: usize,
    content: Cursor<'a>,
}

/// The content of the section of this id, behind the id.
fn content<'a>(id: u8, cursor: &mut Cursor<'a>) -> Result<Cursor<'a>, DecodeFault>
    ensures { MovesBy (λ c. c.rest.now) result cursor.new.rest.now (byte_vector_at cursor.old.rest.now) }
{
    match cursor.sized() {
        Ok(content) => Ok(content),
        Err(fault) => Err(fault.in_length_of(id)),
    }
}

/// Nothing is left of the content of the section of this id.
fn finish(id: u8, content: &Cursor) -> Result<(), DecodeFault>
    ensures { Gives (λ _. tt) result (end_at content.now.rest.now) }
{
    match content.finish() {
        Ok(()) => Ok(()),
        Err(fault) => {
            let left = clamped(content.rest().len());
            let fault = fault.because(Cause::Section(SectionFault::LeftOver(left)));
            Err(fault.in_section(id))
        }
    }
}

/// What stands behind the id of a custom section: a name, and any bytes.
#[tactic(auto, unfolding(crate::specs::Reader::custom_at))]
fn custom(cursor: &mut Cursor) -> Result<(), DecodeFault>
    ensures { MovesBy (λ _. tt) result cursor.new.rest.now (behind_custom_at cursor.old.rest.now) }
{
    let mut content = content(0, cursor)?;
    match content.name() {
        Ok(_) => Ok(()),
        Err(fault) => Err(fault.in_section(0)),
    }
}

/// Goes behind the custom sections.
fn skip_customs(cursor: &mut Cursor) -> Result<(), DecodeFault>
    ensures { Gives (λ _. cursor.new.rest.now) result (skipped cursor.old.rest.now) }
{
    while cursor.is_at(0) {
        cursor.expect(0, Expected::Section)?;
        custom(cursor)?;
    }
    Ok(())
}

/// Goes behind the custom sections, and into the section of this id, if it is there.
#[tactic(auto, unfolding(crate::specs::Reader::opening_at, crate::specs::Reader::content_at))]
fn opening<'a>(id: u8, cursor: &mut Cursor<'a>) -> Result<Option<Section<'a>>, DecodeFault>
    ensures { MovesBy (λ o. option_map (λ s. s.content.rest.now) o) result cursor.new.rest.now (opening_at id cursor.old.rest.now) }
{
    skip_customs(cursor)?;
    if !cursor.is_at(id) {
        return Ok(None);
    }
    let start = cursor.offset();
    cursor.expect(id, Expected::Section)?;
    let content = content(id, cursor)?;
    Ok(Some(Section { start, content }))
}

/// The items of the section of this id, which is a vector; none where it is absent.
#[tactic(auto, unfolding(crate::specs::Reader::section_at))]
fn read_section<T: Spelled>(
    alloc: Alloc,
    id: u8,
    cursor: &mut Cursor,
) -> Result<Items<T>, DecodeFault>
    ensures { Moves result cursor.new.rest.now (section_at id [] (vector_at T.reading) cursor.old.rest.now) }
{
    match opening(id, cursor)? {
        None => Ok(Items::from_vec(Vec::new(alloc))),
        Some(mut found) => {
            let items = match vector::<T>(alloc, &mut found.content) {
                Ok(items) => items,
                Err(fault) => return Err(fault.in_section(id)),
            };
            finish(id, &found.content)?;
            Ok(items)
        }
    }
}

/// The start section.
#[tactic(auto, unfolding(crate::specs::Reader::section_at))]
fn start_section(cursor: &mut Cursor) -> Result<Option<u32>, DecodeFault>
    ensures { Moves result cursor.new.rest.now (section_at 8 None start_at cursor.old.rest.now) }
{
    match opening(8, cursor)? {
        None => Ok(None),
        Some(mut found) => {
            let function = match found.content.unsigned_32() {
                Ok(function) => function,
                Err(fault) => return Err(fault.in_section(8)),
            };
            finish(8, &found.content)?;
            Ok(Some(function))
        }
    }
}

/// The code section.
#[tactic(auto, unfolding(crate::specs::Reader::section_at))]
fn code_section(
    alloc: Alloc,
    types: &[FuncType],
    functions: &[u32],
    cursor: &mut Cursor,
) -> Result<Items<Body>, DecodeFault>
    ensures { Moves result cursor.new.rest.now (section_at 10 [] (code_at true (map (params_of types.now) functions.now)) cursor.old.rest.now) }
{
    match opening(10, cursor)? {
        None => Ok(Items::from_vec(Vec::new(alloc))),
        Some(mut found) => {
            let bodies = match code(alloc, types, functions, found.start, &mut found.content) {
                Ok(bodies) => bodies,
                Err(fault) => return Err(fault.in_section(10)),
            };
            finish(10, &found.content)?;
            Ok(Items::from_vec(bodies))
        }
    }
}

/// Custom sections, and the end of the module.
#[tactic(auto, unfolding(crate::specs::Reader::end_sections_at))]
fn end_sections(functions: usize, bodies: usize, cursor: &mut Cursor) -> Result<(), DecodeFault>
    ensures { Gives (λ _. tt) result (end_sections_at functions bodies cursor.old.rest.now) }
{
    skip_customs(cursor)?;
    if cursor.finish().is_err() {
        return Err(unexpected(cursor));
    }
    if functions == bodies {
        return Ok(());
    }
    let fault = cursor.refusal(Cause::Section(SectionFault::NoCode(clamped(functions))));
    Err(fault.at(ModulePart::End))
}

/// The sections from the code section on.
#[derive(Drop)]
pub struct AfterElements {
    pub bodies: Items<Body>,
    pub data: Items<Data>,
}

#[tactic(auto, unfolding(crate::specs::Reader::code_slot_at, crate::specs::Reader::after_code_at))]
fn after_elements(
    alloc: Alloc,
    types: &[FuncType],
    functions: &[u32],
    cursor: &mut Cursor,
) -> Result<AfterElements, DecodeFault>
    ensures { Gives (λ x. (x.bodies, (x.data, tt))) result (code_slot_at true types.now functions.now cursor.old.rest.now) }
{
    let bodies = code_section(alloc, types, functions, cursor)?;
    let data = read_section::<Data>(alloc, 11, cursor)?;
    end_sections(functions.len(), bodies.as_slice().len(), cursor)?;
    Ok(AfterElements { bodies, data })
}

/// The sections behind those of memories.
#[derive(Drop)]
pub struct AfterMemories {
    pub globals: Items<Global>,
    pub exports: Items<Export>,
    pub start: Option<u32>,
    pub elements: Items<Element>,
    pub after: AfterElements,
}

#[tactic(auto, unfolding(crate::specs::Reader::after_memories_at, crate::specs::Reader::after_start_at))]
fn after_memories(
    alloc: Alloc,
    types: &[FuncType],
    functions: &[u32],
    cursor: &mut Cursor,
) -> Result<AfterMemories, DecodeFault>
    ensures { Gives (λ x. (x.globals, (x.exports, (x.start, (x.elements, (x.after.bodies, (x.after.data, tt))))))) result (after_memories_at true types.now functions.now cursor.old.rest.now) }
{
    let globals = read_section::<Global>(alloc, 6, cursor)?;
    let exports = read_section::<Export>(alloc, 7, cursor)?;
    let start = start_section(cursor)?;
    let elements = read_section::<Element>(alloc, 9, cursor)?;
    let after = after_elements(alloc, types, functions, cursor)?;
    Ok(AfterMemories {
        globals,
        exports,
        start,
        elements,
        after,
    })
}

/// All sections.
#[derive(Drop)]
pub struct Sections {
    pub types: Items<FuncType>,
    pub imports: Items<Import>,
    pub functions: Items<u32>,
    pub tables: Items<Limits>,
    pub memories: Items<MemoryType>,
    pub after: AfterMemories,
}

/// Reads all sections of a module, to its end.
#[tactic(auto, unfolding(crate::specs::Reader::sections_at))]
pub fn read_sections(alloc: Alloc, cursor: &mut Cursor) -> Result<Sections, DecodeFault>
    ensures { Gives (λ x. (x.types, (x.imports, (x.functions, (x.tables, (x.memories, (x.after.globals, (x.after.exports, (x.after.start, (x.after.elements, (x.after.after.bodies, (x.after.after.data, tt)))))))))))) result (sections_at true cursor.old.rest.now) }
{
    let types = read_section::<FuncType>(alloc, 1, cursor)?;
    let imports = read_section::<Import>(alloc, 2, cursor)?;
    let functions = read_section::<u32>(alloc, 3, cursor)?;
    let tables = read_section::<Limits>(alloc, 4, cursor)?;
    let memories = read_section::<MemoryType>(alloc, 5, cursor)?;
    let after = after_memories(alloc, types.as_slice(), functions.as_slice(), cursor)?;
    Ok(Sections {
        types,
        imports,
        functions,
        tables,
        memories,
        after,
    })
}
