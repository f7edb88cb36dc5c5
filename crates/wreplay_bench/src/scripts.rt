//! The script that each thread makes.

ghost use Rattle.std.specs.Prelude.{◌≡◌, IfOk, length};

use scripted::{Cell, CellOp, ScriptStep};
use std::alloc::Global;
use wasm_types::NoMemory;

/// How many threads make steps, in turn.
pub const THREADS: usize = 4;

/// The operation at a place of the script: half of them read, half of them write.
fn operation(place: u32) -> CellOp {
    match place % 6 {
        0 => CellOp::Read(Cell::A),
        1 => CellOp::Add(Cell::B, 1),
        2 => CellOp::Read(Cell::C),
        3 => CellOp::Add(Cell::A, 2),
        4 => CellOp::Read(Cell::B),
        _ => CellOp::Add(Cell::C, 3),
    }
}

/// A script of so many operations.
pub fn script(alloc: Global, steps: u32) -> Result<Vec<ScriptStep>, NoMemory>
    ensures { IfOk result (λ script. length script.items ≡ steps) }
{
    let mut script = Vec::new(alloc);
    for place in 0..steps {
        script.push(ScriptStep::Make(operation(place)))?;
    }
    Ok(script)
}
