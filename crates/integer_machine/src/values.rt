//! The locals and the operands of the functions that a thread is in.

ghost use Rattle.std.specs.Prelude.{◌≡◌, ◌<◌, ◌^◌, ◌++◌, None, IfNone, IfOk, IfSome, OnOk, length, map, option_copied, option_map, reverse, slice_get};
ghost use Rattle.std.specs.List.{All};
ghost use Rattle.wasm_types.specs.declared.value.ValType.TheVariants.{I32};
ghost use Rattle.wasm_types.specs.declared.modules.Module.{Module};
ghost use Rattle.wasm_types.specs.Locals.{locals_of};
ghost use Rattle.wasm_types.specs.Values.{value_of};
ghost use Rattle.thread_words.specs.Thread.{Invocation};
ghost use Rattle.thread_words.specs.Words.{words_of};
ghost use Rattle.integer_machine.specs.Frames.{ends_of, HasFrame, HaveTypes, IsFrame, IsFrameAt, IsSoundIn};
ghost use Rattle.integer_machine.specs.Meaning.{meaning, typed};
ghost use Rattle.integer_machine.specs.Standing.{functions_of, locals_at, operands_at};

use crate::standing::level_at;
use std::alloc::Global;
use thread_words::{Stacks, Stage, body_of_function, declared_locals, type_of_function, value};
use validator::Valid;
use wasm_types::{LocalGroup, NoMemory, ValType, Value};

/// A function that a thread is in: its index and its words, which are first its locals and then its operands.
#[derive(Clone, Copy)]
struct Frame<'a> {
    function: u32,
    words: &'a [u64],
}

/// Where the words of a function that a thread is in end.
fn end_at(m: &Stacks, depth: usize) -> Option<usize>
    ensures { result ≡ slice_get (ends_of m.now) depth }
{
    if depth == 0 {
        return Some(m.words.len());
    }
    let inner = level_at(m, depth - 1)?;
    Some(inner.words)
}

/// A function that a thread is in, by its number.
fn frame_at(m: &Stacks, depth: usize) -> Option<Frame<'_>>
    requires { (within : Module) × IsSoundIn within m.now }
    ensures some { (within : Module) → IsSoundIn within m.now → IfSome result (λ frame. IsFrameAt within (meaning within m.now) depth frame.function frame.words.now) }
    ensures none { (within : Module) → IsSoundIn within m.now → IfNone result (slice_get (functions_of (meaning within m.now)) depth ≡ None) }
{
    if let Stage::Ended(_) = m.stage {
        return None;
    }
    let level = level_at(m, depth)?;
    let end = end_at(m, depth)?;
    Some(Frame {
        function: level.function,
        words: &m.words[level.words..end],
    })
}

/// How many locals a function has, its parameters among them. They are words, so they can be counted.
fn count_locals(valid: &Valid, frame: Frame<'_>) -> usize
    requires { HasFrame valid.now frame.function frame.words.now }
    ensures { (h : Invocation) → IsFrame valid.now h frame.entry.function frame.entry.words.now → result ≡ length h.activation.locals }
{
    let params = type_of_function(valid, frame.function)
        .params
        .as_slice()
        .len();
    let Ok(declared) = declared_locals(body_of_function(valid, frame.function)) else {
        unreachable!()
    };
    params + declared
}

/// The words of a function behind its locals.
fn read_operands<'a>(valid: &Valid, frame: Frame<'a>) -> &'a [u64]
    requires { HasFrame valid.now frame.function frame.words.now }
    ensures { (h : Invocation) → IsFrame valid.now h frame.entry.function frame.entry.words.now → result.now ≡ reverse (words_of h.activation.stack) }
{
    let locals = count_locals(valid, frame);
    &frame.words[locals..]
}

/// The bits of the operands of a function that a thread is in, the topmost last.
pub(crate) fn operands_at<'a>(valid: &Valid, m: &'a Stacks, depth: usize) -> Option<&'a [u64]>
    requires { IsSoundIn valid.now m.now }
    ensures { option_copied result ≡ operands_at (meaning valid.now m.now) depth }
{
    match frame_at(m, depth) {
        Some(frame) => Some(read_operands(valid, frame)),
        None => None,
    }
}

/// The values of these types that stand first in words.
fn first_values(alloc: Global, types: &[ValType], words: &[u64]) -> Result<Vec<Value>, NoMemory>
    requires { HaveTypes types.now words.now }
    ensures { IfOk result (λ values. values.items ≡ typed types.now words.now) }
{
    let mut values = Vec::new(alloc);
    for t in types {
        let word = words[values.len()];
        values.push(value(*t, word))?;
    }
    Ok(values)
}

/// Gives the values of one type that words are.
fn push_values(values: &mut Vec<Value>, t: ValType, words: &[u64]) -> Result<(), NoMemory>
    requires { t ≡ I32 → All (λ word. word < 2 ^ 32) words.now }
    ensures { OnOk result (values.new.items ≡ values.old.items ++ map (value_of t) words.now) }
{
    for word in words {
        values.push(value(t, *word))?;
    }
    Ok(())
}

/// Gives the values of the locals of these groups, which stand first in words.
fn push_groups(
    values: &mut Vec<Value>,
    groups: &[LocalGroup],
    words: &[u64],
) -> Result<(), NoMemory>
    requires { HaveTypes (locals_of groups.now) words.now }
    ensures { OnOk result (values.new.items ≡ values.old.items ++ typed (locals_of groups.now) words.now) }
{
    let mut first = 0;
    for group in groups {
        let past = first + group.count as usize;
        push_values(values, group.val_type, &words[first..past])?;
        first = past;
    }
    Ok(())
}

/// The values of the locals of a function.
fn read_locals(alloc: Global, valid: &Valid, frame: Frame<'_>) -> Result<Vec<Value>, NoMemory>
    requires { HasFrame valid.now frame.function frame.words.now }
    ensures { IfOk result (λ values. (h : Invocation) → IsFrame valid.now h frame.entry.function frame.entry.words.now → values.items ≡ h.activation.locals) }
{
    let params = type_of_function(valid, frame.function).params.as_slice();
    let groups = body_of_function(valid, frame.function).locals.as_slice();
    let mut values = first_values(alloc, params, frame.words)?;
    push_groups(&mut values, groups, &frame.words[params.len()..])?;
    Ok(values)
}

/// The values of the locals of a function that a thread is in, its parameters first.
pub(crate) fn locals_at(
    alloc: Global,
    valid: &Valid,
    m: &Stacks,
    depth: usize,
) -> Result<Option<Vec<Value>>, NoMemory>
    requires { IsSoundIn valid.now m.now }
    ensures { IfOk result (λ locals. option_map (λ values. values.items) locals ≡ locals_at (meaning valid.now m.now) depth) }
{
    match frame_at(m, depth) {
        Some(frame) => Ok(Some(read_locals(alloc, valid, frame)?)),
        None => Ok(None),
    }
}
