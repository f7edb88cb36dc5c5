//! What `validate` says of modules, and what valid ones answer.

use crate::decoding::module_of;
use crate::fault_kinds::ValidKind;
use crate::group_rows::GROUPED;
use crate::validation_rows::{DROP, END, FAULTY, WELL_TYPED};
use std::alloc::Global;
use std::process::Abort;
use validator::{Valid, ValidFault, validate};
use wasm_types::{Block, Instr, Items, Module, NoMemory, Profile};

/// A function of parameters i32 and i64 and of locals i64, none of i32, two i32 and i64, exported as `w`, with the
/// labels 9, 1 and 2; a table, a shared memory of one page, a constant i64 global and a mutable i32 global.
const MODULE: &str = "\
    0061736d01000000010601\
    60027f7e00\
    03020100040401700000050401030101\
    060b027e0042070b7f0141070b07050101770000\
    0a140112\
    04017e007f027f017e41000e03090102000b";

/// The same with 300 locals of i64 at its end.
const MANY_LOCALS: &str = "\
    0061736d01000000010601\
    60027f7e00\
    03020100040401700000050401030101\
    060b027e0042070b7f0141070b07050101770000\
    0a150113\
    04017e007f027fac027e41000e03090102000b";

/// A function and a shared memory, exported under one name.
const TWO_EXPORTS: &str = "\
    0061736d01000000010401600000030201000504010301010709020177000001770200\
    0a040102000b";

/// Three functions of nothing, the second of which wants an operand.
const THREE_FUNCTIONS: &str = "0061736d010000000104016000000304030000000a0b0302000b03001a0b02000b";

/// A module with this code in its last function.
fn replaced(mut module: Module, code: Items<Instr>) -> Module {
    let mut bodies = module.bodies.into_vec();
    if let Some(body) = bodies.last_mut() {
        body.code = code;
    }
    module.bodies = Items::from_vec(bodies);
    module
}

/// The module that these digits spell, with these instructions in its last function.
fn with_code(alloc: Global, digits: &str, code: &[Instr]) -> Result<Module, NoMemory> {
    let code = Vec::from_slice(alloc, code)?;
    match module_of(alloc, digits) {
        Ok(module) => Ok(replaced(module, Items::from_vec(code))),
        Err(_) => Err(NoMemory),
    }
}

fn check(alloc: Global, digits: &str, code: &[Instr]) -> Result<(), ValidFault> {
    let module = with_code(alloc, digits, code)?;
    match validate(alloc, module) {
        Ok(_) => Ok(()),
        Err(fault) => Err(fault),
    }
}

fn invalid(function: Option<u32>, instruction: u32) -> Result<(), ValidKind> {
    Err(ValidKind::Invalid {
        function,
        instruction,
    })
}

fn same(rt: &impl Abort, found: Result<(), ValidFault>, want: Result<(), ValidKind>, row: u64) {
    let found = match found {
        Ok(()) => Ok(()),
        Err(fault) => Err(ValidKind::of(fault)),
    };
    assert_eq!(rt; found, want, "{row}");
}

#[test]
fn functions_are_typed_up_to_their_first_fault(rt: HostRuntime) {
    let well_typed = WELL_TYPED;
    for (row, code) in (0u64..).zip(well_typed) {
        same(&rt, check(rt.alloc(), MODULE, code), Ok(()), row);
    }
    let faulty = FAULTY;
    for (row, (code, instruction)) in (0u64..).zip(faulty) {
        let found = check(rt.alloc(), MODULE, code);
        same(&rt, found, invalid(Some(0), *instruction), row);
    }
    // A fault of the module goes before a fault of a function, and the first faulty function before the others.
    let code = [DROP, END];
    same(
        &rt,
        check(rt.alloc(), TWO_EXPORTS, &code),
        invalid(None, 0),
        0,
    );
    same(
        &rt,
        check(rt.alloc(), THREE_FUNCTIONS, &code),
        invalid(Some(1), 0),
        1,
    );
}

/// A function exported as `w`, which gives an i32: its second instruction opens a block that ends with its fourteenth.
pub(crate) const NESTING: &str = "\
    0061736d01000000010501\
    6000017f0302010005040103010107050101770000\
    0a1b0119\
    01017e410002400240024002400240\
    4100011a0b0b0b0b0b0b";

/// The same with a sign extension, which profile 1 lacks.
const EXTENDING: &str = "\
    0061736d01000000010501\
    6000017f0302010005040103010107050101770000\
    0a1b0119\
    01017e410002400240024002400240\
    4100c01a0b0b0b0b0b0b";

fn is_as_spelled(valid: &Valid, in_profile_one: bool) -> bool {
    let end = match valid.targets(0) {
        Some(targets) => targets.after(1).map(|target| target.end),
        None => None,
    };
    end == Some(13)
        && valid.targets(1).is_none()
        && valid.export("w") == Some(0)
        && valid.export("v").is_none()
        && valid.functions() == 1
        && valid.module().bodies.as_slice().len() == 1
        && valid.fits(&Profile::One) == in_profile_one
        && valid.fits(&Profile::Two(Block::least()))
}

/// The valid module that these digits spell. Where a growth of the test's own is refused it is answered as one of
/// `validate` is.
pub(crate) fn valid_of(alloc: Global, digits: &str) -> Result<Valid, ValidFault> {
    match module_of(alloc, digits) {
        Ok(module) => validate(alloc, module),
        Err(_) => Err(ValidFault::NoMemory),
    }
}

/// Whether the module that these digits spell answers as it should.
pub(crate) fn has_answers(
    alloc: Global,
    digits: &str,
    in_profile_one: bool,
) -> Result<bool, ValidFault> {
    let valid = valid_of(alloc, digits)?;
    Ok(is_as_spelled(&valid, in_profile_one))
}

#[test]
fn a_valid_module_has_answers(rt: HostRuntime) {
    assert!(rt; has_answers(rt.alloc(), NESTING, true) == Ok(true));
    assert!(rt; has_answers(rt.alloc(), EXTENDING, false) == Ok(true));
}

/// Whether a function's table has at each place the group that the rows say.
fn has_groups(alloc: Global) -> Result<bool, ValidFault> {
    let mut code = Vec::new(alloc);
    for (instr, _) in &GROUPED {
        code.push(*instr)?;
    }
    let valid = validate(alloc, with_code(alloc, MANY_LOCALS, &code)?)?;
    let Some(groups) = valid.groups(0) else {
        return Ok(false);
    };
    Ok(
        groups.len() == GROUPED.len()
            && groups
                .iter()
                .zip(&GROUPED)
                .all(|(found, (_, group))| found == group),
    )
}

#[test]
fn a_valid_module_has_the_longest_groups(rt: HostRuntime) {
    assert!(rt; has_groups(rt.alloc()) == Ok(true));
}
