//! The operands and the open blocks at a place of a function.

ghost use Rattle.std.specs.Prelude.{◌≡◌, ◌++◌, List, [], ◌∷◌, Option, Some, reverse, length, ◌≤◌, OnOk, IfSome, option_map, slice_get};
ghost use Rattle.wasm_types.specs.declared.value.ValType.TheVariants.{I32};
ghost use Rattle.wasm_types.specs.declared.nesting.Enclosing.TheVariants.{Whole};
ghost use Rattle.validator.specs.Table.{Fixed, Discards, Selects, Leaves, Enters, Turning, Ending, seq};
ghost use Rattle.validator.specs.Walk.{Frame, agrees, meet, pop_one, pop_all, known, may_end, opened, labels_of};
ghost use Rattle.validator.specs.Standing.{Stand, Pops, PopsTo, PopsAny, PopsAnyTo, TakesResult, IsInnermost, Goes, Stops, no_frame};
ghost use Rattle.validator.specs.Faults.{IsIllTyped};

use crate::fault::InstructionFault;
use crate::step_cause::{Needs, Operand, Row, StepCause};
use std::alloc::{AllocError, Global};
use wasm_types::{Enclosing, NoMemory, ValType};

/// A block that is open.
#[derive(Clone, Copy, Debug)]
pub(crate) struct OpenBlock {
    pub(crate) enclosing: Enclosing,
    /// What a branch to it takes.
    pub(crate) label: Option<ValType>,
    pub(crate) result: Option<ValType>,
    /// How many operands are below it.
    pub(crate) height: usize,
    /// Whether its operands may come from nothing.
    pub(crate) unreachable: bool,
}

/// The operands of all open blocks, None for any type, and the blocks, the innermost last.
#[derive(Debug, Drop)]
pub(crate) struct TypeStacks {
    pub(crate) operands: Vec<Option<ValType>>,
    pub(crate) blocks: Vec<OpenBlock>,
}

// Whether an operand suits where one of this type is wanted.
fn suits(want: ValType, operand: Option<ValType>) -> bool
    ensures { result ≡ agrees want operand }
{
    match operand {
        None => true,
        Some(found) => found.is_same(want),
    }
}

// How many of the lower operands are left when one of a block is taken, where this type is wanted. None where it can't
// be taken.
fn below_one(
    operands: &[Option<ValType>],
    block: OpenBlock,
    count: usize,
    want: ValType,
) -> Option<usize>
    requires { count ≤ length operands.now }
    ensures within { IfSome result (λ left. left ≤ count) }
    ensures pops { PopsTo (pop_one block.unreachable want) block.height operands.now count result }
{
    if count <= block.height {
        return if block.unreachable { Some(count) } else { None };
    }
    if suits(want, operands[count - 1]) {
        Some(count - 1)
    } else {
        None
    }
}

// How many of the lower operands are left when those of a block are taken, where these types are wanted, the last one
// on top. None where they can't be taken.
fn below_all(
    operands: &[Option<ValType>],
    block: OpenBlock,
    count: usize,
    wants: &[ValType],
) -> Option<usize>
    requires { count ≤ length operands.now }
    ensures { PopsTo (pop_all block.unreachable (reverse wants.now)) block.height operands.now count result }
{
    let mut left = count;
    for at in (0..wants.len()).rev() {
        // In an unreachable block all that are left come from nothing.
        if left <= block.height {
            return if block.unreachable { Some(left) } else { None };
        }
        let Some(next) = below_one(operands, block, left, wants[at]) else {
            return None
        };
        left = next;
    }
    Some(left)
}

// Takes operands of a block, where these types are wanted, the last one on top. False where it can't, and then none is
// taken.
fn take_all(operands: &mut Vec<Option<ValType>>, block: OpenBlock, wants: &[ValType]) -> bool
    ensures { Pops (pop_all block.unreachable (reverse wants.now)) block.height result operands.old.items operands.new.items }
{
    let all = operands.as_slice();
    let Some(left) = below_all(all, block, all.len(), wants) else {
        return false
    };
    operands.truncate(left);
    true
}

// Takes operands of a block, where these types are wanted and one more on top. False where it can't, and then none is
// taken.
fn take_above(
    operands: &mut Vec<Option<ValType>>,
    block: OpenBlock,
    above: ValType,
    wants: &[ValType],
) -> bool
    ensures { Pops (pop_all block.unreachable (reverse (wants.now ++ above ∷ []))) block.height result operands.old.items operands.new.items }
{
    let all = operands.as_slice();
    let Some(under) = below_one(all, block, all.len(), above) else {
        return false
    };
    let Some(left) = below_all(all, block, under, wants) else {
        return false
    };
    operands.truncate(left);
    true
}

// Takes an operand of a block, of whatever type. None where it can't.
fn take_any(operands: &mut Vec<Option<ValType>>, block: OpenBlock) -> Option<Option<ValType>>
    ensures { PopsAny block.unreachable block.height result operands.old.items operands.new.items }
{
    if operands.len() <= block.height {
        return if block.unreachable { Some(None) } else { None };
    }
    operands.pop()
}

// An operand of a block, of whatever type, and how many are below it.
#[derive(Clone, Copy)]
struct Next {
    operand: Option<ValType>,
    left: usize,
}

// The uppermost of the lower operands, of whatever type. None where none can be taken.
fn next_below(operands: &[Option<ValType>], block: OpenBlock, count: usize) -> Option<Next>
    requires { count ≤ length operands.now }
    ensures within { IfSome result (λ next. next.left ≤ count) }
    ensures pops { PopsAnyTo block.unreachable block.height operands.now count result }
{
    if count <= block.height {
        return if block.unreachable {
            Some(Next {
                operand: None,
                left: count,
            })
        } else {
            None
        };
    }
    Some(Next {
        operand: operands[count - 1],
        left: count - 1,
    })
}

// The one type that two operands have. None where they differ.
fn common(first: Option<ValType>, second: Option<ValType>) -> Option<Option<ValType>>
    ensures { result ≡ meet first second }
{
    match first {
        None => Some(second),
        Some(found) => match second {
            None => Some(Some(found)),
            Some(other) => if found.is_same(other) {
                Some(Some(found))
            } else {
                None
            },
        },
    }
}

// Puts operands of these types, the last one on top.
fn put_all(operands: &mut Vec<Option<ValType>>, gives: &[ValType]) -> Result<(), AllocError>
    ensures { OnOk result (reverse operands.new.items ≡ known (reverse gives.now) ++ reverse operands.old.items) }
{
    for give in gives {
        operands.push(Some(*give))?;
    }
    Ok(())
}

impl TypeStacks {
    /// Empty stacks. They take no memory.
    pub(crate) fn new(alloc: Global) -> TypeStacks {
        TypeStacks {
            operands: Vec::new(alloc),
            blocks: Vec::new(alloc),
        }
    }

    /// Makes them those at the start of a function with this result.
    pub(crate) fn start(&mut self, leaves: Option<ValType>) -> Result<(), NoMemory>
        ensures { OnOk result (Stand (opened Whole (seq leaves) (seq leaves) ∷ []) self.new) }
    {
        self.operands.clear();
        self.blocks.clear();
        self.blocks.push(OpenBlock {
            enclosing: Enclosing::Whole,
            label: leaves,
            result: leaves,
            height: 0,
            unreachable: false,
        })?;
        Ok(())
    }

    /// The innermost open block.
    pub(crate) fn innermost(&self) -> Option<OpenBlock>
        ensures { (fs : List Frame) → Stand fs self.now → IsInnermost result fs }
    {
        self.blocks.last().copied()
    }

    /// The open block of a label, the innermost one of label 0.
    pub(crate) fn block_at(&self, label: u32) -> Option<OpenBlock>
        ensures { (fs : List Frame) → Stand fs self.now → option_map (λ b. seq b.label) result ≡ slice_get (labels_of fs) label }
    {
        let above = label as usize;
        if above < self.blocks.len() {
            Some(self.blocks[self.blocks.len() - 1 - above])
        } else {
            None
        }
    }

    /// The fault of a label that is not there.
    #[cold]
    pub(crate) fn no_label(&self, label: u32) -> InstructionFault {
        InstructionFault::IllTyped(StepCause::Label {
            label,
            open: self.blocks.len(),
        })
    }

    // The fault of an instruction that needs other operands than the block has.
    #[cold]
    fn lack(&self, block: OpenBlock, needs: Needs) -> InstructionFault {
        let all = self.operands.as_slice();
        let (_, within) = all.split_at(block.height.min(all.len()));
        InstructionFault::IllTyped(StepCause::Operands {
            needs,
            finds: Row::of_operands(within),
        })
    }

    /// An instruction that takes and leaves operands of these types, the last one on top.
    pub(crate) fn fixed(
        &mut self,
        takes: &[ValType],
        gives: &[ValType],
    ) -> Result<(), InstructionFault>
        ensures goes { OnOk result (Goes (λ _. Fixed takes.now gives.now) self.old self.new) }
        ensures stops { IsIllTyped result → Stops (λ _. Fixed takes.now gives.now) self.old }
    {
        let Some(block) = self.innermost() else {
            return Err(InstructionFault::IllTyped(StepCause::BehindEnd))
        };
        if !take_all(&mut self.operands, block, takes) {
            return Err(self.lack(block, Needs::Upper(Row::of_types(takes, None))));
        }
        put_all(&mut self.operands, gives)?;
        Ok(())
    }

    /// The same with one more operand on top.
    pub(crate) fn fixed_above(
        &mut self,
        above: ValType,
        takes: &[ValType],
        gives: &[ValType],
    ) -> Result<(), InstructionFault>
        ensures goes { OnOk result (Goes (λ _. Fixed (takes.now ++ above ∷ []) gives.now) self.old self.new) }
        ensures stops { IsIllTyped result → Stops (λ _. Fixed (takes.now ++ above ∷ []) gives.now) self.old }
    {
        let Some(block) = self.innermost() else {
            return Err(InstructionFault::IllTyped(StepCause::BehindEnd))
        };
        if !take_above(&mut self.operands, block, above, takes) {
            return Err(self.lack(block, Needs::Upper(Row::of_types(takes, Some(above)))));
        }
        put_all(&mut self.operands, gives)?;
        Ok(())
    }

    /// Whether no block is open.
    pub(crate) fn is_closed(&self) -> bool
        ensures { (fs : List Frame) → Stand fs self.now → result ≡ no_frame fs }
    {
        self.blocks.is_empty()
    }

    /// `drop`.
    pub(crate) fn discard(&mut self) -> Result<(), InstructionFault>
        ensures goes { OnOk result (Goes (λ _. Discards) self.old self.new) }
        ensures stops { IsIllTyped result → Stops (λ _. Discards) self.old }
    {
        let Some(block) = self.innermost() else {
            return Err(InstructionFault::IllTyped(StepCause::BehindEnd))
        };
        match take_any(&mut self.operands, block) {
            None => Err(self.lack(block, Needs::One)),
            Some(_) => Ok(()),
        }
    }

    /// `select`.
    pub(crate) fn select(&mut self) -> Result<(), InstructionFault>
        ensures goes { OnOk result (Goes (λ _. Selects) self.old self.new) }
        ensures stops { IsIllTyped result → Stops (λ _. Selects) self.old }
    {
        let Some(block) = self.innermost() else {
            return Err(InstructionFault::IllTyped(StepCause::BehindEnd))
        };
        let all = self.operands.as_slice();
        let Some(under) = below_one(all, block, all.len(), ValType::I32) else {
            return Err(self.lack(block, Needs::Alike))
        };
        let Some(second) = next_below(all, block, under) else {
            return Err(self.lack(block, Needs::Alike))
        };
        let Some(first) = next_below(all, block, second.left) else {
            return Err(self.lack(block, Needs::Alike))
        };
        let Some(operand) = common(second.operand, first.operand) else {
            return Err(self.lack(block, Needs::Alike))
        };
        self.operands.truncate(first.left);
        self.operands.push(operand)?;
        Ok(())
    }

    /// An instruction that takes operands of these types and whatever is below them, and that isn't left downwards.
    pub(crate) fn leave(&mut self, takes: &[ValType]) -> Result<(), InstructionFault>
        ensures goes { OnOk result (Goes (λ _. Leaves takes.now) self.old self.new) }
        ensures stops { IsIllTyped result → Stops (λ _. Leaves takes.now) self.old }
    {
        let Some(block) = self.innermost() else {
            return Err(InstructionFault::IllTyped(StepCause::BehindEnd))
        };
        if !take_all(&mut self.operands, block, takes) {
            return Err(self.lack(block, Needs::Upper(Row::of_types(takes, None))));
        }
        self.operands.truncate(block.height);
        set_last(
            &mut self.blocks,
            OpenBlock {
                unreachable: true,
                ..block
            },
        );
        Ok(())
    }

    /// A branch to a label that takes this.
    pub(crate) fn branch(&mut self, label: Option<ValType>) -> Result<(), InstructionFault>
        ensures goes { OnOk result (Goes (λ _. Leaves (seq label)) self.old self.new) }
        ensures stops { IsIllTyped result → Stops (λ _. Leaves (seq label)) self.old }
    {
        match label {
            None => self.leave(&[]),
            Some(taken) => self.leave(&[taken]),
        }
    }

    /// A branch to a label that takes this, where the operand on top says so.
    pub(crate) fn branch_if(&mut self, label: Option<ValType>) -> Result<(), InstructionFault>
        ensures goes { OnOk result (Goes (λ _. Fixed (seq label ++ I32 ∷ []) (seq label)) self.old self.new) }
        ensures stops { IsIllTyped result → Stops (λ _. Fixed (seq label ++ I32 ∷ []) (seq label)) self.old }
    {
        match label {
            None => self.fixed(&[ValType::I32], &[]),
            Some(taken) => self.fixed(&[taken, ValType::I32], &[taken]),
        }
    }

    /// A branch to one of some labels that all take this, which the operand on top chooses.
    pub(crate) fn branch_by_index(&mut self, label: Option<ValType>) -> Result<(), InstructionFault>
        ensures goes { OnOk result (Goes (λ _. Leaves (seq label ++ I32 ∷ [])) self.old self.new) }
        ensures stops { IsIllTyped result → Stops (λ _. Leaves (seq label ++ I32 ∷ [])) self.old }
    {
        match label {
            None => self.leave(&[ValType::I32]),
            Some(taken) => self.leave(&[taken, ValType::I32]),
        }
    }

    /// An instruction that takes operands of these types and opens a block.
    pub(crate) fn enter(
        &mut self,
        takes: &[ValType],
        enclosing: Enclosing,
        label: Option<ValType>,
        leaves: Option<ValType>,
    ) -> Result<(), InstructionFault>
        ensures goes { OnOk result (Goes (λ _. Enters takes.now enclosing (seq label) (seq leaves)) self.old self.new) }
        ensures stops { IsIllTyped result → Stops (λ _. Enters takes.now enclosing (seq label) (seq leaves)) self.old }
    {
        let Some(block) = self.innermost() else {
            return Err(InstructionFault::IllTyped(StepCause::BehindEnd))
        };
        if !take_all(&mut self.operands, block, takes) {
            return Err(self.lack(block, Needs::Upper(Row::of_types(takes, None))));
        }
        let height = self.operands.len();
        self.blocks.push(OpenBlock {
            enclosing,
            label,
            result: leaves,
            height,
            unreachable: false,
        })?;
        Ok(())
    }

    /// `else`.
    pub(crate) fn turn(&mut self) -> Result<(), InstructionFault>
        ensures goes { OnOk result (Goes (λ _. Turning) self.old self.new) }
        ensures stops { IsIllTyped result → Stops (λ _. Turning) self.old }
    {
        let Some(block) = self.innermost() else {
            return Err(InstructionFault::IllTyped(StepCause::BehindEnd))
        };
        match block.enclosing {
            Enclosing::Whole => Err(InstructionFault::IllTyped(StepCause::Else)),
            Enclosing::FirstArm => {
                if !take_result(&mut self.operands, block) {
                    return Err(self.lack(block, Needs::Alone(Row::of_result(block.result))));
                }
                set_last(
                    &mut self.blocks,
                    OpenBlock {
                        enclosing: Enclosing::Whole,
                        unreachable: false,
                        ..block
                    },
                );
                Ok(())
            }
        }
    }

    /// `end`.
    pub(crate) fn end(&mut self) -> Result<(), InstructionFault>
        ensures goes { OnOk result (Goes (λ _. Ending) self.old self.new) }
        ensures stops { IsIllTyped result → Stops (λ _. Ending) self.old }
    {
        let Some(block) = self.innermost() else {
            return Err(InstructionFault::IllTyped(StepCause::BehindEnd))
        };
        if !may_close(block) {
            return Err(InstructionFault::IllTyped(StepCause::NoElse(Operand::of(block.result))));
        }
        if !take_result(&mut self.operands, block) {
            return Err(self.lack(block, Needs::Alone(Row::of_result(block.result))));
        }
        self.blocks.pop();
        // The function's result is its caller's.
        if self.blocks.is_empty() {
            return Ok(());
        }
        if let Some(found) = block.result {
            self.operands.push(Some(found))?;
        }
        Ok(())
    }
}

// Whether an `end` may close a block: an `if` without an `else` leaves nothing.
fn may_close(block: OpenBlock) -> bool
    ensures { result ≡ may_end block.enclosing (seq block.result) }
{
    match block.enclosing {
        Enclosing::Whole => true,
        Enclosing::FirstArm => block.result.is_none(),
    }
}

// How many operands are left when a block's result is taken. None where it can't be taken.
fn below_result(operands: &[Option<ValType>], block: OpenBlock) -> Option<usize>
    ensures within { IfSome result (λ left. left ≤ length operands.now) }
    ensures pops { PopsTo (pop_all block.unreachable (seq block.result)) block.height operands.now (length operands.now) result }
{
    match block.result {
        None => Some(operands.len()),
        Some(want) => below_one(operands, block, operands.len(), want),
    }
}

// Takes a block's result, where it is all that stands there. False where it is not, and then nothing is taken.
fn take_result(operands: &mut Vec<Option<ValType>>, block: OpenBlock) -> bool
    ensures { TakesResult block result operands.old.items operands.new.items }
{
    let Some(left) = below_result(operands.as_slice(), block) else {
        return false
    };
    if left > block.height {
        return false;
    }
    operands.truncate(left);
    true
}

// Puts a block in the place of the innermost.
fn set_last(blocks: &mut Vec<OpenBlock>, block: OpenBlock)
    ensures { (front : List OpenBlock) (last : OpenBlock) → blocks.old.items ≡ front ++ last ∷ [] → blocks.new.items ≡ front ++ block ∷ [] }
{
    if let Some(last) = blocks.last_mut() {
        *last = block;
    }
}
