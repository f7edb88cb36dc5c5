//! The modules and plans in files.

ghost use Rattle.std.specs.Prelude.{◌≡◌, ℕ, List, IfOk, IfErr, take};
ghost use Rattle.thread_plan.specs.Plans.{IsPlanOf};
ghost use Rattle.commands.specs.Checks.{IsModule, IsDecodeFault, IsValidFile, IsModuleRefused};
ghost use Rattle.commands.specs.Inputs.{IsPlanFile, IsPlanRefused, IsProgram, IsProgramRefused};

use crate::fault::Fault;
use crate::files::{Files, InputFile, read_file};
use crate::quotes::{import_names, plan_quote};
use binary_decoder::{DecodeFault, decode};
use log::Log;
use std::alloc::Global;
use thread_plan::Plan;
use validator::{Valid, validate};
use wasm_types::Module;

/// How many bytes of a module's file are read at most: one more than a module can have.
pub(crate) const MODULE_BEGINNING: usize = 1_048_577;

/// The module that the bytes of a file spell, of which this is the beginning.
fn decode_beginning(alloc: Global, beginning: &[u8]) -> Result<Module, DecodeFault>
    ensures found { IfOk result (λ m. (bytes : List ℕ) → beginning.now ≡ take MODULE_BEGINNING bytes → IsModule bytes m) }
    ensures refused { IfErr result (λ fault. (bytes : List ℕ) → beginning.now ≡ take MODULE_BEGINNING bytes → IsDecodeFault bytes fault) }
{
    decode(alloc, beginning)
}

/// The module in a file, which is valid.
pub(crate) fn read_module<L: Log, F: Files>(
    rt: &L,
    alloc: Global,
    files: &mut F,
    path: &str,
) -> Result<Valid, Fault>
    ensures found { IfOk result (λ valid. IsValidFile (F.holds files.old path.now) valid) }
    ensures refused { IfErr result (λ fault. IsModuleRefused (F.holds files.old path.now) (F.fails files.old path.now) fault) }
    ensures still_holds { (other bytes : List ℕ) → F.holds files.new other bytes → F.holds files.old other bytes }
    ensures still_fails { (other : List ℕ) → F.fails files.new other → F.fails files.old other }
{
    let beginning = match read_file(rt, alloc, files, path, Some(MODULE_BEGINNING)) {
        Ok(beginning) => beginning,
        Err(fault) => return Err(Fault::File(fault, InputFile::Module)),
    };
    let module = match decode_beginning(alloc, &beginning) {
        Ok(module) => module,
        Err(fault) => return Err(Fault::Decode(fault, import_names(&beginning, &fault))),
    };
    match validate(alloc, module) {
        Ok(valid) => Ok(valid),
        Err(fault) => Err(Fault::Valid(fault)),
    }
}

/// The plan for a module in a file.
fn read_plan<L: Log, F: Files>(
    rt: &L,
    alloc: Global,
    files: &mut F,
    path: &str,
    valid: &Valid,
) -> Result<Plan, Fault>
    ensures found { IfOk result (λ plan. IsPlanFile (F.holds files.old path.now) valid.now plan) }
    ensures suits { IfOk result (λ plan. IsPlanOf valid.now plan) }
    ensures refused { IfErr result (λ fault. IsPlanRefused (F.holds files.old path.now) (F.fails files.old path.now) valid.now fault) }
    ensures still_holds { (other bytes : List ℕ) → F.holds files.new other bytes → F.holds files.old other bytes }
    ensures still_fails { (other : List ℕ) → F.fails files.new other → F.fails files.old other }
{
    let bytes = match read_file(rt, alloc, files, path, None) {
        Ok(bytes) => bytes,
        Err(fault) => return Err(Fault::File(fault, InputFile::Plan)),
    };
    match Plan::read(alloc, &bytes, valid) {
        Ok(plan) => Ok(plan),
        Err(fault) => Err(Fault::Plan(fault, plan_quote(&bytes, &fault))),
    }
}

/// A module, and a plan for it.
#[derive(Drop)]
pub struct Program {
    pub valid: Valid,
    pub plan: Plan,
}

/// The module and the plan in two files. The module is read and judged, then the plan.
pub(crate) fn read_program<L: Log, F: Files>(
    rt: &L,
    alloc: Global,
    files: &mut F,
    module_path: &str,
    plan_path: &str,
) -> Result<Program, Fault>
    ensures found { IfOk result (λ program. IsProgram (F.holds files.old) module_path.now plan_path.now program.valid program.plan) }
    ensures suits { IfOk result (λ program. IsPlanOf program.valid program.plan) }
    ensures refused { IfErr result (λ fault. IsProgramRefused (F.holds files.old) (F.fails files.old) module_path.now plan_path.now fault) }
    ensures still_holds { (other bytes : List ℕ) → F.holds files.new other bytes → F.holds files.old other bytes }
    ensures still_fails { (other : List ℕ) → F.fails files.new other → F.fails files.old other }
{
    let valid = match read_module(rt, alloc, files, module_path) {
        Ok(valid) => valid,
        Err(fault) => return Err(fault),
    };
    match read_plan(rt, alloc, files, plan_path, &valid) {
        Ok(plan) => Ok(Program { valid, plan }),
        Err(fault) => Err(fault),
    }
}
