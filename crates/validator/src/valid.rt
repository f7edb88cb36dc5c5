//! Validated modules.

ghost use Rattle.std.specs.Prelude.{◌≡◌, ℕ, ◌&&◌, ◌<◌, ◌≤◌, ◌^◌, true, false, map, take, length, List, IfOk, OnOk, IfErr, IfNone, IfSome, Some, option_copied, option_map, slice_get};
ghost use Rattle.wasm_types.specs.Limits.{Within};
ghost use Rattle.validator.specs.Targets.{targets_from};
ghost use Rattle.instruction_groups.specs.Groups.{Describes};
ghost use Rattle.wasm_types.specs.declared.modules.Body.{Body};
ghost use Rattle.validator.specs.Module.{rules};
ghost use Rattle.validator.specs.Exports.{distinct, AreNames, exported_function};
ghost use Rattle.validator.specs.Valid.{WellTyped, TypedAt, Refuses, FaultAt, IsOfFunction, all_targets, fault_in};

use crate::exports::{function_of, names_of};
use crate::fault::{CheckFault, ValidFault};
use crate::function::check_function;
use crate::limits::keeps_limits;
use crate::name_hasher::NameHasher;
use crate::rules::keeps_rules;
use crate::stacks::TypeStacks;
use crate::table::type_of_function;
use crate::targets::{TargetFinder, Targets};
use indexmap::IndexMap;
use instruction_groups::{Group, groups_of_all};
use std::alloc::Global;
use std::marker::Model;
use wasm_types::Module;

/// A module that is well typed (WebAssembly Core 1.0, validation), with the targets of its functions' blocks and the
/// groups of their instructions. Contracts see the module.
#[derive(Drop)]
pub struct Valid {
    module: Module,
    // The number of each export whose name is UTF-8, by the name.
    names: IndexMap<String, u32, NameHasher>,
    // The targets of each function.
    targets: Vec<Targets>,
    // The groups of each function.
    groups: Vec<Vec<Group>>,
}

impl Model for Valid {
    ghost use Rattle.wasm_types.specs.declared.modules.Module.{Module};
    ghost use Rattle.validator.specs.Valid.{WellTyped, all_targets};
    ghost use Rattle.validator.specs.Exports.{AreNames, HashesFor};
    ghost use Rattle.indexmap.specs.IndexMap.{hasher_of};
    ghost use Rattle.instruction_groups.specs.Groups.{DescribesAll};
    ghost use Rattle.std.specs.Prelude.{◌≡◌};

    ghost Value = { Module };

    ghost view = { λ v. v.module };

    ghost invariant = { λ v. WellTyped v.module × AreNames v.names.entries v.module.exports × (v.targets.items ≡ all_targets v.module.bodies) × DescribesAll v.module.bodies v.groups.items × HashesFor v.module.source (hasher_of v.names) };
}

/// Validates a module, which is given up on a refusal. A module that passes a limit (1,048,576 bytes, 256 pages and
/// 4,096 elements at first, 1,024 parameters and locals of a function), as no decoded module does, breaks a rule.
pub fn validate(alloc: Global, module: Module) -> Result<Valid, ValidFault>
    ensures same { IfOk result (λ valid. valid ≡ «module») }
    ensures typed { OnOk result (WellTyped «module») }
    ensures refuses { IfErr result (λ fault. Refuses «module» fault) }
{
    keeps_rules(&module)?;
    keeps_limits(&module)?;
    let names = names_of(
        alloc,
        NameHasher::of(module.source.as_slice()),
        module.exports.as_slice(),
    )??;
    let targets = check_functions(alloc, &module)?;
    let groups = groups_of_all(alloc, module.bodies.as_slice())?;
    Ok(Valid {
        module,
        names,
        targets,
        groups,
    })
}

// What the checks of the functions work with, one after the other: the memory that one took serves the next.
#[derive(Drop)]
struct Workspace {
    stacks: TypeStacks,
    // Where the groups of locals end.
    ends: Vec<u64>,
    finder: TargetFinder,
}

// Types each function, and finds the targets of its blocks.
fn check_functions(alloc: Global, module: &Module) -> Result<Vec<Targets>, ValidFault>
    requires { rules module.now ≡ true }
    ensures typed { OnOk result ((function : ℕ) → TypedAt module.now function) }
    ensures targets { IfOk result (λ targets. targets.items ≡ all_targets module.now.bodies) }
    ensures fault { IfErr result (λ fault. IsOfFunction module.now fault) }
{
    let mut targets = Vec::new(alloc);
    let mut work = Workspace {
        stacks: TypeStacks::new(alloc),
        ends: Vec::new(alloc),
        finder: TargetFinder::new(alloc),
    };
    for function in 0..module.bodies.as_slice().len() {
        let found = check_at(alloc, &mut work, module, function as u32)?;
        targets.push(found)?;
    }
    Ok(targets)
}

// Types one function, and finds the targets of its blocks.
fn check_at(
    alloc: Global,
    work: &mut Workspace,
    module: &Module,
    function: u32,
) -> Result<Targets, ValidFault>
    requires rules { rules module.now ≡ true }
    requires there { function < length module.now.bodies }
    requires before { (g : ℕ) → g < function → TypedAt module.now g }
    ensures typed { OnOk result (TypedAt module.now function) }
    ensures targets { IfOk result (λ targets. option_map (λ body. targets_from 0 body.code) (slice_get module.now.bodies function) ≡ Some targets) }
    ensures fault { IfErr result (λ fault. IsOfFunction module.now fault) }
{
    let body = &module.bodies.as_slice()[function as usize];
    let Some(kind) = type_of_function(module, function) else {
        unreachable!()
    };
    match check_function(&mut work.stacks, &mut work.ends, module, kind, body) {
        Ok(()) => {}
        Err(found) => return Err(fault_of_function(function, found)),
    }
    match work.finder.find(alloc, body.code.as_slice())? {
        None => unreachable!(),
        Some(targets) => Ok(targets),
    }
}

fn fault_of_function(function: u32, fault: CheckFault) -> ValidFault
    ensures { result ≡ fault_in function fault }
{
    match fault {
        CheckFault::IllTyped(at, cause) => ValidFault::Invalid {
            function: Some(function),
            instruction: at,
            cause,
        },
        CheckFault::NoMemory => ValidFault::NoMemory,
    }
}

impl Valid {
    /// The module, which is well typed and within the limits.
    pub fn module(&self) -> &Module
        ensures module { result.now ≡ self.now }
        ensures typed { WellTyped self.now }
        ensures within { Within self.now }
    {
        &self.module
    }

    /// The index of the function that is exported under a name. It takes no memory.
    pub fn export(&self, name: &str) -> Option<u32>
        ensures { result ≡ exported_function self.now.exports name.now }
    {
        let number = *self.names.get(name)?;
        let export = &self.module.exports.as_slice()[number as usize];
        function_of(export)
    }

    /// How many functions there are. It takes no memory.
    pub fn functions(&self) -> u32
        ensures { result ≡ length self.now.functions }
    {
        self.module.functions.as_slice().len() as u32
    }

    /// The targets of a function's blocks; None past the last function. It takes no memory.
    pub fn targets(&self, function: u32) -> Option<&Targets>
        ensures { option_copied result ≡ option_map (λ body. targets_from 0 body.code) (slice_get self.now.bodies function) }
    {
        self.targets.as_slice().get(function as usize)
    }

    /// The groups of a function's instructions, one for each place; None past the last function. It takes no memory.
    pub fn groups(&self, function: u32) -> Option<&[Group]>
        ensures none { IfNone result (length self.now.bodies ≤ function) }
        ensures some { IfSome result (λ groups. function < length self.now.bodies) }
        ensures groups { IfSome result (λ groups. (body : Body) → slice_get self.now.bodies function ≡ Some body → Describes body.code groups.now) }
    {
        match self.groups.as_slice().get(function as usize) {
            Some(table) => Some(table.as_slice()),
            None => None,
        }
    }
}
