//! The labels of branch tables.

ghost use Rattle.std.specs.Prelude.{◌≡◌, List, is_none, option_map, option_copied};
ghost use Rattle.validator.specs.Context.{labels_in};
ghost use Rattle.validator.specs.Table.{all_take, takes_these, seq};
ghost use Rattle.validator.specs.Walk.{Frame, labels_of};
ghost use Rattle.validator.specs.Standing.{Stand};

use crate::stacks::{OpenBlock, TypeStacks};
use wasm_types::{LabelRange, ValType};

// The labels of a branch table, where its range is within the function's.
pub(crate) fn labels_of_range(labels: &[u32], range: LabelRange) -> Option<&[u32]>
    ensures { option_copied result ≡ labels_in labels.now range }
{
    let first = range.first as usize;
    let end = first + range.count as usize;
    if end <= labels.len() {
        Some(&labels[first..end])
    } else {
        None
    }
}

// The first label that is not there or does not take what is named.
pub(crate) fn other_label(
    stacks: &TypeStacks,
    takes: Option<ValType>,
    labels: &[u32],
) -> Option<u32>
    ensures { (fs : List Frame) → Stand fs stacks.now → is_none result ≡ all_take (labels_of fs) (seq takes) labels.now }
{
    for label in labels {
        if !block_takes(stacks.block_at(*label), takes) {
            return Some(*label);
        }
    }
    None
}

fn block_takes(block: Option<OpenBlock>, takes: Option<ValType>) -> bool
    ensures { result ≡ takes_these (seq takes) (option_map (λ b. seq b.label) block) }
{
    let Some(block) = block else { return false };
    match takes {
        None => block.label.is_none(),
        Some(taken) => match block.label {
            None => false,
            Some(other) => taken.is_same(other),
        },
    }
}
