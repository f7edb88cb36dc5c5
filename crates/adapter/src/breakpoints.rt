//! Breakpoints that clients set.

ghost use Rattle.std.specs.Prelude.{◌≡◌, IfOk, OnErr};
ghost use Rattle.debugger.specs.Functions.{IsEntry};
ghost use Rattle.adapter.specs.Breakpoints.{Pairs, SetsData, SetsFunctions, breakpoint_at, breakpoints_of, breakpoints_reply, no_sources, none_of, those};
ghost use Rattle.adapter.specs.State.{Suits, state_of};

use crate::adapter::Adapter;
use crate::replies::success;
use adapter_messages::{Body, Breakpoint, List, Reply, Text, Told};
use std::alloc::Global;
use wasm_types::NoMemory;
use wasm_world::CodePlace;

/// What is said of a breakpoint in a source.
const NO_SOURCES: &str =
    "error: no sources are known, set breakpoints at functions or instructions";

/// What is said of a function that there is not.
const NO_FUNCTION: &str = "error: no such function";

/// What is said of bytes that are not named.
pub(crate) const NO_RANGE: &str = "error: no such bytes, try write FROM LEN";

/// What is said of a breakpoint for which that was found.
fn breakpoint_at<T: Copy>(
    alloc: Global,
    message: &str,
    number: usize,
    found: Option<T>,
) -> Result<Breakpoint, NoMemory>
    ensures { IfOk result (λ breakpoint. breakpoint ≡ breakpoint_at message.now number found) }
{
    let (is_verified, message) = match found {
        Some(_) => (true, ""),
        None => (false, message),
    };
    Ok(Breakpoint {
        id: number as u64,
        is_verified,
        message: Text::new(alloc, message)?,
    })
}

/// What is said of breakpoints for which these were found.
pub(crate) fn breakpoints_of<T: Copy>(
    alloc: Global,
    message: &str,
    found: &[Option<T>],
) -> Result<List<Breakpoint>, NoMemory>
    ensures { IfOk result (λ breakpoints. breakpoints ≡ breakpoints_of message.now found.now) }
{
    let mut breakpoints = List::new(alloc);
    for (number, one) in found.iter().enumerate() {
        breakpoints.push(breakpoint_at(alloc, message, number, *one)?)?;
    }
    Ok(breakpoints)
}

/// Those that were found.
pub(crate) fn those<T: Copy>(alloc: Global, found: &[Option<T>]) -> Result<Vec<T>, NoMemory>
    ensures { IfOk result (λ items. items.items ≡ those found.now) }
{
    let mut items = Vec::new(alloc);
    for one in found {
        if let Some(one) = one {
            items.push(*one)?;
        }
    }
    Ok(items)
}

impl<'a> Adapter<'a> {
    /// Answers that there are no breakpoints in sources.
    pub(crate) fn refuse_sources(&self, alloc: Global, count: usize) -> Result<Reply, NoMemory>
        ensures { IfOk result (λ reply. reply ≡ breakpoints_reply no_sources (none_of count)) }
    {
        let found: Vec<Option<u32>> = vec![in alloc; None; count]?;
        let breakpoints = breakpoints_of(alloc, NO_SOURCES, &found)?;
        Ok(success(Body::Breakpoints(breakpoints), Told::none()))
    }

    /// The first instructions of the functions that are called so.
    fn entries_of(&self, alloc: Global, names: &[Text]) -> Result<Vec<Option<CodePlace>>, NoMemory>
        ensures { IfOk result (λ found. Pairs (IsEntry (state_of self.now).debugger.code) names.now found.items) }
    {
        let mut found = Vec::new(alloc);
        for name in names {
            found.push(self.debugger.entry_of(alloc, name.as_str())?)?;
        }
        Ok(found)
    }

    /// Sets breakpoints at functions.
    pub(crate) fn set_functions(&mut self, alloc: Global, names: &[Text]) -> Result<Reply, NoMemory>
        requires { Suits self.old }
        ensures sets { IfOk result (λ reply. SetsFunctions names.now (state_of self.old) reply (state_of self.new)) }
        ensures unchanged { OnErr result (state_of self.new ≡ state_of self.old) }
        ensures suits { Suits self.new }
    {
        let found = self.entries_of(alloc, names)?;
        let breakpoints = breakpoints_of(alloc, NO_FUNCTION, &found)?;
        let mut places = those(alloc, &found)?;
        let functions = places.len();
        places.extend_from_slice(&self.debugger.instructions()[self.functions..])?;
        self.debugger.set_instructions(places);
        self.functions = functions;
        Ok(success(Body::Breakpoints(breakpoints), Told::none()))
    }

    /// Sets breakpoints at writes of bytes.
    pub(crate) fn set_data(&mut self, alloc: Global, ids: &[Text]) -> Result<Reply, NoMemory>
        requires { Suits self.old }
        ensures sets { IfOk result (λ reply. SetsData ids.now (state_of self.old) reply (state_of self.new)) }
        ensures unchanged { OnErr result (state_of self.new ≡ state_of self.old) }
        ensures suits { Suits self.new }
    {
        let found = self.writes_of(alloc, ids)?;
        let breakpoints = breakpoints_of(alloc, NO_RANGE, &found)?;
        let breaks = those(alloc, &found)?;
        self.debugger.set_breaks(breaks);
        Ok(success(Body::Breakpoints(breakpoints), Told::none()))
    }
}
