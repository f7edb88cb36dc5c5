//! Lists among the arguments of a request.

ghost use Rattle.std.specs.Prelude.{◌≡◌, IfOk, option_map, option_and_then};
ghost use Rattle.std.specs.Option.{option_copied};
ghost use Rattle.serde_json.specs.Find.{as_array};
ghost use Rattle.serde_json.specs.View.{view, items_view};
ghost use Rattle.adapter_messages.specs.Arguments.{argument};
ghost use Rattle.adapter_messages.specs.ArgumentLists.{item_text, each, texts, offset_of, breakpoint_of, breakpoints, count_or_zero};

use crate::arguments::argument;
use crate::request::InstructionBreakpoint;
use crate::text::{List, Text};
use serde_json::Value;
use std::alloc::{AllocError, Global};

/// The list that the arguments of a message have at this name.
fn list<'v>(message: &'v Value, name: &str) -> Option<&'v Vec<Value>>
    ensures { option_map (λ v. items_view v.now.items) result ≡ option_and_then as_array (argument name.now (view message.now)) }
{
    argument(message, name).and_then(Value::as_array)
}

/// The text that an item is, or that it has as this member.
fn item_text<'v>(item: &'v Value, member: Option<&str>) -> Option<&'v str>
    ensures { option_copied result ≡ item_text (option_copied member.entry) (view item.now) }
{
    match member {
        None => item.as_str(),
        Some(name) => item.get(name).and_then(Value::as_str),
    }
}

/// The texts of items, where each has one.
fn texts_of(
    alloc: Global,
    items: &[Value],
    member: Option<&str>,
) -> Result<Option<List<Text>>, AllocError>
    ensures { IfOk result (λ found. found ≡ each (item_text (option_copied member.entry)) (items_view items.now)) }
{
    let mut found = List::new(alloc);
    for item in items {
        match item_text(item, member) {
            Some(text) => found.push(Text::new(alloc, text)?)?,
            None => return Ok(None),
        }
    }
    Ok(Some(found))
}

/// The texts of a list, or of a member of its items.
pub(crate) fn texts(
    alloc: Global,
    message: &Value,
    name: &str,
    member: Option<&str>,
) -> Result<Option<List<Text>>, AllocError>
    ensures { IfOk result (λ found. found ≡ texts (option_copied member.entry) name.now (view message.now)) }
{
    match list(message, name) {
        Some(items) => texts_of(alloc, items, member),
        None => Ok(None),
    }
}

/// How far behind the place that its reference names a breakpoint stands.
fn offset_of(item: &Value) -> Option<i64>
    ensures { result ≡ offset_of (view item.now) }
{
    match item.get("offset") {
        Some(value) => value.as_i64(),
        None => Some(0),
    }
}

/// A breakpoint at an instruction.
fn breakpoint_of(alloc: Global, item: &Value) -> Result<Option<InstructionBreakpoint>, AllocError>
    ensures { IfOk result (λ found. found ≡ breakpoint_of (view item.now)) }
{
    let Some(reference) = item_text(item, Some("instructionReference")) else {
        return Ok(None);
    };
    let Some(offset) = offset_of(item) else {
        return Ok(None);
    };
    let reference = Text::new(alloc, reference)?;
    Ok(Some(InstructionBreakpoint { reference, offset }))
}

/// The breakpoints at instructions that items are, where each is one.
fn breakpoints_of(
    alloc: Global,
    items: &[Value],
) -> Result<Option<List<InstructionBreakpoint>>, AllocError>
    ensures { IfOk result (λ found. found ≡ each breakpoint_of (items_view items.now)) }
{
    let mut found = List::new(alloc);
    for item in items {
        match breakpoint_of(alloc, item)? {
            Some(breakpoint) => found.push(breakpoint)?,
            None => return Ok(None),
        }
    }
    Ok(Some(found))
}

/// The breakpoints at instructions of a list.
pub(crate) fn breakpoints(
    alloc: Global,
    message: &Value,
    name: &str,
) -> Result<Option<List<InstructionBreakpoint>>, AllocError>
    ensures { IfOk result (λ found. found ≡ breakpoints name.now (view message.now)) }
{
    match list(message, name) {
        Some(items) => breakpoints_of(alloc, items),
        None => Ok(None),
    }
}

/// How many items a list has, 0 where it is left out.
pub(crate) fn count_or_zero(message: &Value, name: &str) -> Option<usize>
    ensures { result ≡ count_or_zero name.now (view message.now) }
{
    match argument(message, name) {
        None => Some(0),
        Some(value) => match value.as_array() {
            Some(items) => Some(items.as_slice().len()),
            None => None,
        },
    }
}
