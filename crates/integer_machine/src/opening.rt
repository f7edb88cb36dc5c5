//! The stacks with which a thread begins.

ghost use Rattle.std.specs.Prelude.{◌≡◌, ℕ, ◌++◌, OnOk, IfOk, map, Some};
ghost use Rattle.wasm_types.specs.declared.modules.FuncType.{FuncType};
ghost use Rattle.validator.specs.Context.{function_type};
ghost use Rattle.thread_words.specs.Thread.{State};
ghost use Rattle.wasm_types.specs.Globals.{opening_globals};
ghost use Rattle.thread_words.specs.Opening.{opening};
ghost use Rattle.thread_words.specs.Words.{words_of, Stands, AreInRange};
ghost use Rattle.integer_machine.specs.Entry.{entry_words, HasType};

use std::alloc::Global;
use thread_words::{Level, Stacks, Stage, declared_locals, put_zeros, word};
use validator::Valid;
use wasm_types::{Body, Module, NoMemory, Value};

/// Gives the words of values.
fn push_values(words: &mut Vec<u64>, values: &[Value]) -> Result<(), NoMemory>
    ensures words { OnOk result (words.new.items ≡ words.old.items ++ words_of values.now) }
    ensures range { OnOk result (AreInRange values.now) }
{
    for value in values {
        words.push(word(*value))?;
    }
    Ok(())
}

/// The words of the globals with which a thread begins.
fn first_globals(alloc: Global, module: &Module) -> Result<Vec<u64>, NoMemory>
    ensures words { IfOk result (λ words. words.items ≡ words_of (opening_globals «module».now)) }
    ensures range { OnOk result (AreInRange (opening_globals «module».now)) }
{
    let mut words = Vec::new(alloc);
    for global in module.globals.as_slice() {
        words.push(word(global.value))?;
    }
    Ok(words)
}

/// Gives the words of a function as it is entered: its arguments, and zeros for the locals that it declares.
fn push_entry(words: &mut Vec<u64>, body: &Body, arguments: &[Value]) -> Result<(), NoMemory>
    ensures words { OnOk result (words.new.items ≡ words.old.items ++ entry_words body.now arguments.now) }
    ensures range { OnOk result (AreInRange arguments.now) }
{
    push_values(words, arguments)?;
    let declared = declared_locals(body)?;
    put_zeros(words, 0, declared)
}

/// A function as it is entered above so many words.
fn entered(function: u32, words: usize) -> Level
    ensures { result ≡ record { function = function; place = 0; words = words; labels = 0 } }
{
    Level {
        function,
        place: 0,
        words,
        labels: 0,
    }
}

/// The stacks of a thread before its first step: it runs the start function, if there is one, and then the function.
pub(crate) fn opening_stacks(
    alloc: Global,
    valid: &Valid,
    function: u32,
    arguments: &[Value],
) -> Result<Stacks, NoMemory>
    requires { HasType valid.now function arguments.now }
    ensures { IfOk result (λ stacks. (first : State) → opening valid.now function arguments.now ≡ Some first → Stands first stacks) }
{
    let module = valid.module();
    let bodies = module.bodies.as_slice();
    let globals = first_globals(alloc, module)?;
    let mut words = Vec::new(alloc);
    push_entry(&mut words, &bodies[function as usize], arguments)?;
    let exported = entered(function, 0);
    let mut callers = Vec::new(alloc);
    let here = match module.start {
        None => exported,
        Some(start) => {
            let below = words.len();
            callers.push(exported)?;
            push_entry(&mut words, &bodies[start as usize], &[])?;
            entered(start, below)
        }
    };
    Ok(Stacks {
        stage: Stage::Running,
        here,
        callers,
        starting: module.start.is_some(),
        words,
        labels: Vec::new(alloc),
        globals,
    })
}
