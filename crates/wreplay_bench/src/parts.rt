//! The machine's and the space's own work.

ghost use Rattle.std.specs.Prelude.{◌≡◌, ◌<◌, ◌+◌, ℕ, OnOk, OnErr};
ghost use Rattle.rw_objects.specs.declared.next.Next.TheVariants.{Ask};
ghost use Rattle.scripted.specs.declared.op.CellOp.{CellOp};
ghost use Rattle.scripted.specs.Script.{script_at, script_code};

use crate::scripts::THREADS;
use rw_objects::{Machine, Next, ObjectSpace};
use scripted::{Cells, Script, ScriptStep};
use std::alloc::Global;
use wasm_types::{MOST_STEPS, NoMemory};

/// Makes the operation that a script asks for and gives it the reply. Where it asks for none, nothing is done.
fn one<'a>(machine: &'a mut Script, cells: &'a mut Cells) -> Result<(), NoMemory>
    ensures steps { OnOk result ((op : CellOp) → script_code.next (script_at machine.old) ≡ Ask op → (script_at machine.old).made < MOST_STEPS → (script_at machine.new).made ≡ (script_at machine.old).made + 1) }
    ensures err { OnErr result (script_at machine.new ≡ script_at machine.old) }
{
    if machine.steps() >= MOST_STEPS {
        return Ok(());
    }
    let Next::Ask(op) = machine.next() else {
        return Ok(());
    };
    let reply = cells.apply(&op);
    machine.take(reply)
}

/// One operation of each machine.
fn round(machines: &mut Vec<Script>, cells: &mut Cells) -> Result<(), NoMemory> {
    for machine in machines.iter_mut() {
        one(machine, cells)?;
    }
    Ok(())
}

/// Makes the script in each of four threads, an operation of each in turn, and answers the sum of the cells.
pub fn parts_alone(alloc: Global, script: &[ScriptStep]) -> Result<u64, NoMemory> {
    let mut machines = Vec::new(alloc);
    for _ in 0..THREADS {
        machines.push(Script::new(alloc, script.to_vec(alloc)?))?;
    }
    let mut cells = Cells { cells: [0, 0, 0] };
    for _ in 0..script.len() {
        round(&mut machines, &mut cells)?;
    }
    let [a, b, c] = cells.cells;
    Ok(a.wrapping_add(b).wrapping_add(c))
}
