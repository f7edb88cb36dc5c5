//! The scopes of frames, and their variables.

ghost use Rattle.std.specs.Prelude.{◌≡◌, ◌++◌, ◌<◌, IfOk, IsTrue, OnOk, Some, length, reverse, slice_get, string_bytes};
ghost use Rattle.std.specs.Option.{option_to_list};
ghost use Rattle.rw_objects.specs.Counts.{count_at};
ghost use Rattle.debug_views.specs.TraceLines.{number_text};
ghost use Rattle.wasm_world.specs.Standing.{locals_at, operands_at};
ghost use Rattle.debugger.specs.Replies.{IsLed};
ghost use Rattle.adapter.specs.Numbered.{numbered};
ghost use Rattle.adapter.specs.State.{state_of};
ghost use Rattle.adapter.specs.Variables.{frame_depth, frame_thread, is_frame, local_item, locals_of, operand_item, operands_of, scope, scopes_of, scopes_reply, variables_reply, versions_if};

use crate::adapter::Adapter;
use crate::frames::MOST_FRAMES;
use crate::replies::{failure, success};
use crate::versions::versions_of;
use adapter_messages::{Body, List, Reply, Scope, Text, Told, Variable};
use log_pieces::Flat;
use rw_objects::{Entry, Versions};
use std::alloc::Global;
use std::fmt::Write;
use wasm_types::{NoMemory, Value};
use wasm_world::{CodePlace, ThreadState};

/// What is said of a frame that there is not.
const NO_FRAME: &str = "error: no such frame";

/// The least bits that are written in hexadecimal.
const LEAST_HEXADECIMAL: u64 = 65536;

/// Whether a frame may have that id.
fn is_frame(frame: u64) -> bool
    ensures { result ≡ is_frame frame }
{
    0 < frame && frame <= 16 * MOST_FRAMES as u64
}

/// The thread of a frame.
fn frame_thread(frame: u64) -> u32
    ensures { result ≡ frame_thread frame }
{
    (frame.saturating_sub(1) % 16) as u32
}

/// The depth of a frame.
fn frame_depth(frame: u64) -> usize
    ensures { result ≡ frame_depth frame }
{
    (frame.saturating_sub(1) / 16) as usize
}

/// A scope.
fn scope(alloc: Global, name: &str, reference: u64) -> Result<Scope, NoMemory>
    ensures { IfOk result (λ one. one ≡ scope name.now reference) }
{
    Ok(Scope {
        name: Text::new(alloc, name)?,
        reference,
    })
}

/// The scopes of a frame, if a thread stands there.
fn scopes_of(alloc: Global, frame: u64, place: Option<CodePlace>) -> Result<Reply, NoMemory>
    requires { IsTrue (is_frame frame) }
    ensures { IfOk result (λ reply. reply ≡ scopes_of frame place) }
{
    if place.is_none() {
        return failure(alloc, NO_FRAME);
    }
    let mut scopes = List::new(alloc);
    scopes.push(scope(alloc, "Locals", 3 * frame)?)?;
    scopes.push(scope(alloc, "Operands", 3 * frame + 1)?)?;
    scopes.push(scope(alloc, "Versions", 3 * frame + 2)?)?;
    Ok(success(Body::Scopes(scopes), Told::none()))
}

/// A local.
fn local_item(alloc: Global, number: usize, value: Value) -> Result<Variable, NoMemory>
    ensures { IfOk result (λ item. item ≡ local_item number value) }
{
    let mut name = String::new(alloc);
    write!(name, "local {number}")?;
    let mut text = String::new(alloc);
    write!(text, "{value}")?;
    Ok(Variable {
        name: Text::new(alloc, name.as_str())?,
        value: Text::new(alloc, text.as_str())?,
        reference: 0,
    })
}

/// Locals.
fn locals_of(alloc: Global, values: &[Value]) -> Result<Reply, NoMemory>
    ensures { IfOk result (λ reply. reply ≡ locals_of (Some values.now)) }
{
    let mut items = List::new(alloc);
    for (number, value) in values.iter().enumerate() {
        items.push(local_item(alloc, number, *value)?)?;
    }
    Ok(success(Body::Variables(items), Told::none()))
}

/// The value of an operand.
fn write_bits(text: &mut String, bits: u64) -> Result<(), NoMemory>
    ensures { OnOk result (string_bytes text.new ≡ string_bytes text.old ++ number_text bits) }
{
    if bits < LEAST_HEXADECIMAL {
        write!(text, "{bits}")?;
    } else {
        write!(text, "0x{bits:x}")?;
    }
    Ok(())
}

/// An operand.
fn operand_item(alloc: Global, number: usize, bits: u64) -> Result<Variable, NoMemory>
    ensures { IfOk result (λ item. item ≡ operand_item number bits) }
{
    let mut name = String::new(alloc);
    write!(name, "operand {number}")?;
    let mut text = String::new(alloc);
    write_bits(&mut text, bits)?;
    Ok(Variable {
        name: Text::new(alloc, name.as_str())?,
        value: Text::new(alloc, text.as_str())?,
        reference: 0,
    })
}

/// Puts the operand of a number behind others. The topmost, which stands last here, has number 0.
fn push_operand(
    alloc: Global,
    items: &mut List<Variable>,
    words: &[u64],
    number: usize,
) -> Result<(), NoMemory>
    requires { number < length words.now }
    ensures { OnOk result (items.new ≡ items.old ++ numbered operand_item number (option_to_list (slice_get (reverse words.now) number))) }
{
    items.push(operand_item(alloc, number, words[words.len() - 1 - number])?)?;
    Ok(())
}

/// Operands.
#[tactic(auto, using(crate::proofs::Numbers::numbered_next))]
fn operands_of(alloc: Global, words: &[u64]) -> Result<Reply, NoMemory>
    ensures { IfOk result (λ reply. reply ≡ operands_of (Some words.now)) }
{
    let mut items = List::new(alloc);
    for number in 0..words.len() {
        push_operand(alloc, &mut items, words, number)?;
    }
    Ok(success(Body::Variables(items), Told::none()))
}

/// The locals of a function that a thread is in.
fn locals_at(alloc: Global, machine: &ThreadState<'_>, depth: usize) -> Result<Reply, NoMemory>
    ensures { IfOk result (λ reply. reply ≡ locals_of (locals_at machine.now.thread.state depth)) }
{
    match machine.locals(alloc, depth)? {
        Some(values) => locals_of(alloc, values.as_slice()),
        None => failure(alloc, NO_FRAME),
    }
}

/// The operands of a function that a thread is in.
fn operands_at(alloc: Global, machine: &ThreadState<'_>, depth: usize) -> Result<Reply, NoMemory>
    ensures { IfOk result (λ reply. reply ≡ operands_of (operands_at machine.now.thread.state depth)) }
{
    match machine.operands(depth) {
        Some(words) => operands_of(alloc, words),
        None => failure(alloc, NO_FRAME),
    }
}

/// The versions for a thread of whose next event this is claimed, if it is in a function there.
fn versions_if(
    alloc: Global,
    versions: &Versions,
    item: Option<Flat<Entry>>,
    place: Option<CodePlace>,
) -> Result<Reply, NoMemory>
    ensures { IfOk result (λ reply. reply ≡ versions_if (count_at versions.now) item place) }
{
    if place.is_none() {
        return failure(alloc, NO_FRAME);
    }
    let items = versions_of(alloc, versions, item)?;
    Ok(success(Body::Variables(items), Told::none()))
}

impl<'a> Adapter<'a> {
    /// Shows the scopes of a frame.
    pub(crate) fn show_scopes(&self, alloc: Global, frame: u64) -> Result<Reply, NoMemory>
        ensures led { IsLed (state_of self.now).debugger }
        ensures shows { IfOk result (λ reply. reply ≡ scopes_reply (state_of self.now) frame) }
    {
        let world = self.debugger.world();
        if !is_frame(frame) {
            return failure(alloc, NO_FRAME);
        }
        let Some(machine) = world.machine(frame_thread(frame)) else {
            return failure(alloc, NO_FRAME);
        };
        scopes_of(alloc, frame, machine.code_place(frame_depth(frame)))
    }

    /// Shows the variables of a scope.
    pub(crate) fn show_variables(&self, alloc: Global, reference: u64) -> Result<Reply, NoMemory>
        ensures led { IsLed (state_of self.now).debugger }
        ensures shows { IfOk result (λ reply. reply ≡ variables_reply (state_of self.now) reference) }
    {
        let world = self.debugger.world();
        let frame = reference / 3;
        if !is_frame(frame) {
            return failure(alloc, NO_FRAME);
        }
        let thread = frame_thread(frame);
        let (Some(machine), Some(places)) = (world.machine(thread), world.places(thread)) else {
            return failure(alloc, NO_FRAME);
        };
        let depth = frame_depth(frame);
        match reference % 3 {
            0 => locals_at(alloc, machine, depth),
            1 => operands_at(alloc, machine, depth),
            _ => {
                let item = self.debugger.entry(thread, places);
                versions_if(alloc, world.versions(), item, machine.code_place(depth))
            }
        }
    }
}
