//! Branches.

ghost use Rattle.std.specs.Prelude.{◌≡◌, ℕ, ◌+◌, ◌-◌, ◌<◌, ◌≤◌, ◌^◌, List, Some, true, false, length, slice_get, vec_capacity};
ghost use Rattle.wasm_types.specs.declared.instruction.Instr.TheVariants.{Index, BranchTable};
ghost use Rattle.wasm_types.specs.declared.instruction.IndexOp.TheVariants.{Branch, BranchIf};
ghost use Rattle.validator.specs.Context.{labels_in};
ghost use Rattle.thread_words.specs.Step.{chosen_label};
ghost use Rattle.thread_words.specs.Thread.{Function, function_at};
ghost use Rattle.thread_words.specs.Apart.{IsInner};
ghost use Rattle.thread_words.specs.Fields.{Keeps, IsHeight};
ghost use Rattle.thread_words.specs.FunctionCode.{CanLandWith, LandsWith, CanLandIn, LandsIn, CanLandWithin, LandsWithin};
ghost use Rattle.thread_words.specs.Leaving.{CanBranch, Branches, HasTable};
ghost use Rattle.thread_words.specs.Moves.{CanStepIn, StepsIn};

use crate::functions::{
    behind_end_by, body_of_function, code_of_function, instruction_in, targets_of_function,
};
use crate::leaving::leave;
use crate::operands::{cut, drop_top, i32_operand};
use crate::stacks::{Label, Stacks};
use validator::{Targets, Valid};
use wasm_types::{BlockKind, Instr, LabelRange, ValType};

/// Where a branch to a block goes on, whether the topmost word stays, and how many of the block's own labels stay.
#[derive(Clone, Copy)]
pub(crate) struct Landing {
    pub keep: bool,
    pub place: u32,
    pub labels: usize,
}

/// The landing at a block of a kind and a result.
#[inline(always)]
fn land(targets: &Targets, opener: u32, kind: BlockKind, t: Option<ValType>) -> Landing
    requires { CanLandWith targets.now opener kind t }
    ensures { LandsWith targets.now opener kind t result }
{
    match kind {
        BlockKind::Loop => Landing {
            keep: false,
            place: opener + 1,
            labels: 1,
        },
        BlockKind::Block | BlockKind::If => Landing {
            keep: t.is_some(),
            place: behind_end_by(targets, opener),
            labels: 0,
        },
    }
}

/// The landing at the block that is opened at a place.
#[inline(always)]
fn landing_at(code: &[Instr], targets: &Targets, opener: u32) -> Landing
    requires { CanLandIn code.now targets.now opener }
    ensures { LandsIn code.now targets.now opener result }
{
    match *instruction_in(code, opener) {
        Instr::Block(kind, t) => land(targets, opener, kind, t),
        _ => unreachable!(),
    }
}

/// The height whose low 32 bits these are, and which is less than 2^32 below so many words.
#[inline(always)]
fn height_below(words: usize, low: u32) -> usize
    requires { (height : ℕ) × IsHeight low words height }
    ensures { (height : ℕ) → IsHeight low words height → result ≡ height }
{
    let above = ((words % 0x1_0000_0000) as u32).wrapping_sub(low);
    words - above as usize
}

/// Whether the label at a depth is a block's, and not the function's.
#[inline(always)]
pub(crate) fn is_inner(m: &Stacks, depth: u32) -> bool
    requires { m.now.here.labels ≤ length m.now.labels.items }
    ensures inner { result ≡ true → IsInner depth m.now }
    ensures outer { result ≡ false → length m.now.labels.items - m.now.here.labels ≡ depth }
{
    m.labels.len() - m.here.labels != depth as usize
}

/// A branch to a block, on the labels and the words of a function of this code. Answers the place to go on at.
#[inline(always)]
pub(crate) fn land_inside(
    labels: &mut Vec<Label>,
    words: &mut Vec<u64>,
    code: &[Instr],
    targets: &Targets,
    depth: u32,
) -> u32
    requires { CanLandWithin code.now targets.now depth words.old labels.old }
    ensures lands { LandsWithin code.now targets.now depth words.old labels.old result words.new labels.new }
    ensures capacity { vec_capacity words.new ≡ vec_capacity words.old }
    ensures shorter { length words.new.items ≤ length words.old.items }
{
    let at = labels.len() - 1 - depth as usize;
    let label = labels[at];
    let landing = landing_at(code, targets, label.opener);
    let height = height_below(words.len(), label.height);
    cut(words, height, landing.keep);
    labels.truncate(at + landing.labels);
    landing.place
}

/// A branch to the label at a depth, the outermost of which is the function's. Answers whether the same function is
/// known to go on.
#[inline(always)]
fn branch_to(m: &mut Stacks, valid: &Valid, depth: u32) -> bool
    requires { CanBranch valid.now depth m.old }
    ensures steps { Branches valid.now depth m.old m.new }
    ensures kept { result ≡ true → Keeps m.old m.new }
{
    if !is_inner(m, depth) {
        leave(m, valid);
        return false;
    }
    let code = code_of_function(valid, m.here.function);
    let targets = targets_of_function(valid, m.here.function);
    m.here.place = land_inside(&mut m.labels, &mut m.words, code, targets, depth);
    true
}

/// `br`. It takes no memory. Answers whether the same function is known to go on.
#[inline(always)]
pub fn branch(m: &mut Stacks, valid: &Valid, depth: u32) -> bool
    requires { CanStepIn valid.now (Index Branch depth) m.old }
    ensures steps { StepsIn valid.now (Index Branch depth) m.old m.new }
    ensures kept { result ≡ true → Keeps m.old m.new }
{
    branch_to(m, valid, depth)
}

/// `br_if`. It takes no memory. Answers whether the same function is known to go on.
#[inline(always)]
pub fn branch_if(m: &mut Stacks, valid: &Valid, depth: u32) -> bool
    requires { CanStepIn valid.now (Index BranchIf depth) m.old }
    ensures steps { StepsIn valid.now (Index BranchIf depth) m.old m.new }
    ensures kept { result ≡ true → Keeps m.old m.new }
{
    let condition = i32_operand(m, 0);
    drop_top(m, 1);
    if condition != 0 {
        return branch_to(m, valid, depth);
    }
    true
}

/// The label of a branch table by an operand, or the default where that is too large.
fn label_at(valid: &Valid, function: u32, range: LabelRange, default: u32, at: u32) -> u32
    requires { HasTable valid.now function range }
    ensures { (f : Function) (labels : List ℕ) → function_at valid.now function ≡ Some f → labels_in f.body.labels range ≡ Some labels → result ≡ chosen_label (slice_get labels at) default }
{
    if at < range.count {
        body_of_function(valid, function).labels.as_slice()[range.first as usize + at as usize]
    } else {
        default
    }
}

/// `br_table`. It takes no memory. Answers whether the same function is known to go on.
#[inline(never)]
pub fn branch_table(m: &mut Stacks, valid: &Valid, range: LabelRange, default: u32) -> bool
    requires { CanStepIn valid.now (BranchTable range default) m.old }
    ensures steps { StepsIn valid.now (BranchTable range default) m.old m.new }
    ensures kept { result ≡ true → Keeps m.old m.new }
{
    let at = i32_operand(m, 0);
    let depth = label_at(valid, m.here.function, range, default, at);
    drop_top(m, 1);
    branch_to(m, valid, depth)
}
