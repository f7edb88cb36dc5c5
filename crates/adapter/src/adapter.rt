//! A debug adapter over a debugger.

ghost use Rattle.std.specs.Prelude.{◌≡◌, IfOk};
ghost use Rattle.debugger.specs.At.{at_of, CanOpen};
ghost use Rattle.adapter.specs.State.{Suits, opening_of, state_of};

use crate::code::Code;
use debugger::Debugger;
use std::alloc::Global;
use wasm_types::NoMemory;

/// A debug adapter over a debugger. Contracts see by `state_of` where it stands.
#[derive(Drop)]
pub struct Adapter<'a> {
    pub(crate) debugger: Debugger<'a>,
    pub(crate) code: Code<'a>,
    /// How many of the breaks at instructions are function breakpoints: these come first.
    pub(crate) functions: usize,
}

impl<'a> Adapter<'a> {
    /// An adapter over that debugger, before its first request.
    pub fn new(alloc: Global, debugger: Debugger<'a>) -> Result<Adapter<'a>, NoMemory>
        requires { CanOpen debugger }
        ensures opening { IfOk result (λ a. state_of a ≡ opening_of (at_of debugger.entry)) }
        ensures suits { IfOk result Suits }
    {
        let source = debugger.valid().module().source.as_slice();
        let code = match Code::new(alloc, source) {
            Ok(code) => code,
            Err(error) => {
                drop(debugger);
                return Err(error);
            }
        };
        Ok(Adapter {
            debugger,
            code,
            functions: 0,
        })
    }
}
