//! The bodies of functions.

ghost use Rattle.std.specs.Prelude.{◌≡◌, ◌+◌, ◌≤◌, ◌<◌, ◌^◌, map, length, IfOk, true};
ghost use Rattle.binary_decoder.specs.Moves.{Moves, MovesBy, IsRefusedAt};
ghost use Rattle.wasm_types.specs.Limits.{params_of};
ghost use Rattle.binary_decoder.specs.Reader.{group_at, groups_at, locals_at, inside_at, body_at, bodies_at, code_at};

use crate::cause::{Cause, Limit, SectionFault};
use crate::cursor::Cursor;
use crate::fault::{DecodeFault, clamped};
use crate::instructions::expr;
use crate::parts::Spelled;
use crate::place::ModulePart;
use std::alloc::Global;
use wasm_types::{Body, Enclosing, FuncType, Items, LocalGroup, ValType};

/// The most parameters and locals of a function.
pub const MOST_LOCALS: u32 = 1024;

/// Locals of one type, which with those before them keep the limit.
#[tactic(auto, unfolding(crate::specs::Reader::group_at))]
fn group(alloc: Global, used: u32, cursor: &mut Cursor) -> Result<LocalGroup, DecodeFault>
    requires { used ≤ 1024 }
    ensures value { Moves result cursor.new.rest.now (group_at true used cursor.old.rest.now) }
    ensures fits { IfOk result (λ group. used + group.count ≤ 1024) }
{
    let count = cursor.limited(MOST_LOCALS, used, Limit::Locals)?;
    let val_type = ValType::read(alloc, cursor)?;
    Ok(LocalGroup { count, val_type })
}

/// So many groups of locals.
fn groups(
    alloc: Global,
    params: u32,
    count: u32,
    cursor: &mut Cursor,
) -> Result<Vec<LocalGroup>, DecodeFault>
    requires { params ≤ 1024 }
    ensures { MovesBy (λ x. x.items) result cursor.new.rest.now (groups_at true params count cursor.old.rest.now) }
{
    let mut groups = Vec::new(alloc);
    let mut used = params;
    for _ in 0..count {
        let group = group(alloc, used, cursor)?;
        used += group.count;
        groups.push(group)?;
    }
    Ok(groups)
}

#[tactic(auto, unfolding(crate::specs::Reader::locals_at))]
fn locals(alloc: Global, params: u32, cursor: &mut Cursor) -> Result<Vec<LocalGroup>, DecodeFault>
    requires { params ≤ 1024 }
    ensures { MovesBy (λ x. x.items) result cursor.new.rest.now (locals_at true params cursor.old.rest.now) }
{
    let count = cursor.unsigned_32()?;
    groups(alloc, params, count, cursor)
}

/// What stands within the size of a body.
#[tactic(auto, unfolding(crate::specs::Reader::inside_at))]
fn inside(
    alloc: Global,
    blocks: &mut Vec<Enclosing>,
    params: u32,
    cursor: &mut Cursor,
) -> Result<Body, DecodeFault>
    requires params { params ≤ 1024 }
    requires bytes { length cursor.now.rest.now < 2 ^ 32 }
    ensures { Moves result cursor.new.rest.now (inside_at true params cursor.old.rest.now) }
{
    let locals = locals(alloc, params, cursor)?;
    let (code, labels) = expr(alloc, blocks, cursor)?;
    Ok(Body {
        locals: Items::from_vec(locals),
        code: Items::from_vec(code),
        labels: Items::from_vec(labels),
    })
}

/// The body of a function with so many parameters.
#[tactic(auto, unfolding(crate::specs::Reader::body_at))]
fn body(
    alloc: Global,
    blocks: &mut Vec<Enclosing>,
    params: usize,
    cursor: &mut Cursor,
) -> Result<Body, DecodeFault>
    ensures { Moves result cursor.new.rest.now (body_at true params cursor.old.rest.now) }
{
    if (MOST_LOCALS as usize) < params {
        return Err(DecodeFault::TooLarge {
            limit: Limit::Parameters,
            count: params as u64,
            place: ModulePart::Unknown,
        });
    }
    let mut content = cursor.sized()?;
    let body = inside(alloc, blocks, params as u32, &mut content)?;
    content.finish()?;
    Ok(body)
}

/// How many parameters a type has; none where there is no such type.
fn params_in(types: &[FuncType], index: u32) -> usize
    ensures { result ≡ params_of types.now index }
{
    match types.get(index as usize) {
        None => 0,
        Some(found) => found.params.as_slice().len(),
    }
}

/// A body for each function.
fn bodies(
    alloc: Global,
    types: &[FuncType],
    functions: &[u32],
    cursor: &mut Cursor,
) -> Result<Vec<Body>, DecodeFault>
    ensures { MovesBy (λ x. x.items) result cursor.new.rest.now (bodies_at true (map (params_of types.now) functions.now) cursor.old.rest.now) }
{
    let mut bodies = Vec::new(alloc);
    // The blocks that are open in the body that is read.
    let mut blocks = Vec::new(alloc);
    for function in functions {
        let body = match body(alloc, &mut blocks, params_in(types, *function), cursor) {
            Ok(body) => body,
            Err(fault) => return Err(fault.in_function(bodies.len())),
        };
        bodies.push(body)?;
    }
    Ok(bodies)
}

/// The refusal of a code section, the id of which has the offset `start`, that counts other bodies than there are
/// functions.
#[cold]
fn other_count(start: usize, bodies: u32, functions: usize) -> DecodeFault
    ensures { IsRefusedAt start result }
{
    let functions = clamped(functions);
    DecodeFault::refused(
        start,
        Cause::Section(SectionFault::Bodies { bodies, functions }),
    )
}

/// The content of the code section: as many bodies as there are functions. Refused at the code section's id, which has
/// the offset `start`, where it counts others.
#[tactic(auto, unfolding(crate::specs::Reader::code_at))]
pub fn code(
    alloc: Global,
    types: &[FuncType],
    functions: &[u32],
    start: usize,
    cursor: &mut Cursor,
) -> Result<Vec<Body>, DecodeFault>
    ensures { MovesBy (λ x. x.items) result cursor.new.rest.now (code_at true (map (params_of types.now) functions.now) cursor.old.rest.now) }
{
    let count = cursor.unsigned_32()?;
    if count as usize != functions.len() {
        return Err(other_count(start, count, functions.len()));
    }
    bodies(alloc, types, functions, cursor)
}
