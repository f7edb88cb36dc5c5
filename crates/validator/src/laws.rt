//! Laws of the typing rules and of the check from left to right.

ghost use Rattle.std.specs.Prelude.{List};
ghost use Rattle.wasm_types.specs.declared.instruction.Instr.{Instr};
ghost use Rattle.wasm_types.specs.Nesting.{Nests};
ghost use Rattle.validator.specs.Context.{Context};
ghost use Rattle.validator.specs.Typing.{FunctionTyped};
ghost use Rattle.validator.specs.Walk.{Checked};
ghost use Rattle.validator.specs.Reach.{ReachesEnd, ReachesElse, LeavesNothing};

/// What the check lets pass is well typed.
pub fn checked_is_typed()
    ensures { (c : Context) (code : List Instr) → Checked c code → FunctionTyped c code }
{}

/// What is well typed is let pass by the check.
pub fn typed_is_checked()
    ensures { (c : Context) (code : List Instr) → FunctionTyped c code → Checked c code }
{}

/// The blocks of a function that the check lets pass nest, so that it has targets.
pub fn checked_nests()
    ensures { (c : Context) (code : List Instr) → Checked c code → Nests code }
{}

/// Where the rest of a function is checked, each open block has an `end`, and the check stands there as before the
/// block, with its result.
pub fn reaches_end()
    ensures { ReachesEnd }
{}

/// The same of the `else` of an `if`, behind which the block begins anew.
pub fn reaches_else()
    ensures { ReachesElse }
{}

/// An `if` without an `else` leaves nothing.
pub fn an_if_without_else_leaves_nothing()
    ensures { LeavesNothing }
{}
