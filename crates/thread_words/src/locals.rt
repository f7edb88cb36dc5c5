//! Locals and globals.

ghost use Rattle.std.specs.Prelude.{◌≡◌, OnOk, OnErr, IsOk};
ghost use Rattle.wasm_types.specs.declared.instruction.Instr.TheVariants.{Index};
ghost use Rattle.wasm_types.specs.declared.instruction.IndexOp.TheVariants.{LocalGet, LocalSet, LocalTee, GlobalGet, GlobalSet};
ghost use Rattle.thread_words.specs.Fields.{Keeps};
ghost use Rattle.thread_words.specs.Moves.{CanStepSomewhere, StepsAnywhere, Unchanged, HasRoom};

use crate::operands::{advance, drop_top, operand, push, store, write};
use crate::stacks::Stacks;
use wasm_types::NoMemory;

/// `local.get`.
pub fn local_get(m: &mut Stacks, local: u32) -> Result<(), NoMemory>
    requires { CanStepSomewhere (Index LocalGet local) m.old }
    ensures ok { OnOk result (StepsAnywhere (Index LocalGet local) m.old m.new) }
    ensures kept { OnOk result (Keeps m.old m.new) }
    ensures err { OnErr result (Unchanged m.old m.new) }
    ensures room { HasRoom 1 m.old → IsOk result }
{
    let word = m.words[m.here.words + local as usize];
    push(m, word)
}

/// `local.set`. It takes no memory.
pub fn local_set(m: &mut Stacks, local: u32)
    requires { CanStepSomewhere (Index LocalSet local) m.old }
    ensures steps { StepsAnywhere (Index LocalSet local) m.old m.new }
    ensures kept { Keeps m.old m.new }
{
    store(&mut m.words, m.here.words + local as usize);
    drop_top(m, 1);
}

/// `local.tee`. It takes no memory.
pub fn local_tee(m: &mut Stacks, local: u32)
    requires { CanStepSomewhere (Index LocalTee local) m.old }
    ensures steps { StepsAnywhere (Index LocalTee local) m.old m.new }
    ensures kept { Keeps m.old m.new }
{
    store(&mut m.words, m.here.words + local as usize);
    advance(m);
}

/// `global.get`.
pub fn global_get(m: &mut Stacks, global: u32) -> Result<(), NoMemory>
    requires { CanStepSomewhere (Index GlobalGet global) m.old }
    ensures ok { OnOk result (StepsAnywhere (Index GlobalGet global) m.old m.new) }
    ensures kept { OnOk result (Keeps m.old m.new) }
    ensures err { OnErr result (Unchanged m.old m.new) }
    ensures room { HasRoom 1 m.old → IsOk result }
{
    let word = m.globals[global as usize];
    push(m, word)
}

/// `global.set`. It takes no memory.
pub fn global_set(m: &mut Stacks, global: u32)
    requires { CanStepSomewhere (Index GlobalSet global) m.old }
    ensures steps { StepsAnywhere (Index GlobalSet global) m.old m.new }
    ensures kept { Keeps m.old m.new }
{
    let word = operand(&m.words, 0);
    write(&mut m.globals, global as usize, word);
    drop_top(m, 1);
}
