//! The check of a module, and of a plan for it.

ghost use Rattle.std.specs.Prelude.{◌≡◌, ◌⊎◌, IfOk, IfErr};
ghost use Rattle.commands.specs.Checks.{IsChecked, IsCheckRefused, valid_text};
ghost use Rattle.commands.specs.Inputs.{IsProgramRefused};
ghost use Rattle.commands.specs.PlanChecks.{IsHinted, IsCheckAnswer, IsNotChecked, hinted_text};
ghost use Rattle.commands.specs.declared.fault.Fault.TheVariants as faults;

use crate::fault::Fault;
use crate::files::Files;
use crate::program::{Program, read_module, read_program};
use binary_decoder::summary;
use log::Log;
use std::alloc::Global;
use thread_plan::hints;
use wasm_types::Module;

/// The last line of the summary of a module that is well typed.
const VALID: &str = "valid\n";

/// The summary of the module in a file, which is valid. With a plan, which is read behind the module, the hints follow at
/// what may go wrong with its threads.
pub fn check<L: Log, F: Files>(
    rt: &L,
    alloc: Global,
    files: &mut F,
    path: &str,
    plan: Option<&str>,
) -> Result<Vec<u8>, Fault>
    ensures checked { IfOk result (λ text. IsCheckAnswer (F.holds files.old) path.now plan.entry text.items) }
    ensures refused { IfErr result (λ fault. IsNotChecked (F.holds files.old) (F.fails files.old) path.now plan.entry fault) }
{
    match plan {
        None => check_module(rt, alloc, files, path),
        Some(plan) => check_program(rt, alloc, files, path, plan),
    }
}

/// The summary of the module in a file, which is valid.
fn check_module<L: Log, F: Files>(
    rt: &L,
    alloc: Global,
    files: &mut F,
    path: &str,
) -> Result<Vec<u8>, Fault>
    ensures checked { IfOk result (λ text. IsChecked (F.holds files.old path.now) text.items) }
    ensures refused { IfErr result (λ fault. IsCheckRefused (F.holds files.old path.now) (F.fails files.old path.now) fault) }
{
    let valid = match read_module(rt, alloc, files, path) {
        Ok(valid) => valid,
        Err(fault) => return Err(fault),
    };
    valid_summary(alloc, valid.module())
}

/// The same, and behind it the hints of the plan in another file.
fn check_program<L: Log, F: Files>(
    rt: &L,
    alloc: Global,
    files: &mut F,
    module_path: &str,
    plan_path: &str,
) -> Result<Vec<u8>, Fault>
    ensures checked { IfOk result (λ text. IsHinted (F.holds files.old) module_path.now plan_path.now text.items) }
    ensures refused { IfErr result (λ fault. IsProgramRefused (F.holds files.old) (F.fails files.old) module_path.now plan_path.now fault ⊎ (fault ≡ faults.NoMemory)) }
{
    let program = match read_program(rt, alloc, files, module_path, plan_path) {
        Ok(program) => program,
        Err(fault) => return Err(fault),
    };
    hinted_summary(alloc, &program)
}

/// The summary of a module, which is valid.
fn valid_summary(alloc: Global, module: &Module) -> Result<Vec<u8>, Fault>
    ensures text { IfOk result (λ text. text.items ≡ valid_text «module».now) }
    ensures refused { IfErr result (λ fault. fault ≡ faults.NoMemory) }
{
    let mut text = summary(alloc, module)?;
    let Ok(()) = text.extend_from_slice(VALID.as_bytes()) else {
        return Err(Fault::NoMemory);
    };
    Ok(text)
}

/// The same, and behind it the hints of a plan.
fn hinted_summary(alloc: Global, program: &Program) -> Result<Vec<u8>, Fault>
    ensures text { IfOk result (λ text. text.items ≡ hinted_text program.now.valid program.now.plan) }
    ensures refused { IfErr result (λ fault. fault ≡ faults.NoMemory) }
{
    let hints = hints(alloc, &program.valid, &program.plan)?;
    let mut text = valid_summary(alloc, program.valid.module())?;
    let Ok(()) = text.extend_from_slice(hints.as_str().as_bytes()) else {
        return Err(Fault::NoMemory);
    };
    Ok(text)
}
