//! Numbers on the command line.

ghost use Rattle.std.specs.Prelude.{◌≡◌, ◌∷◌, [], ◌++◌, List, ℕ, Some, None, IfOk, option_map};
ghost use Rattle.std.specs.Char.{is_ascii_digit};
ghost use Rattle.std.specs.List.{list_all};
ghost use Rattle.text_lines.specs.Parts.{parts_left};
ghost use Rattle.command_words.specs.Words.{has_digits_alone, number_up_to, threads_in, order_in, pair_in};

use std::alloc::Global;
use text_lines::Parts;
use wasm_types::NoMemory;

/// The most threads of an order.
const MOST_TURNS: usize = 1_000_000;

/// Whether a text is of decimal digits alone, one or more.
fn has_digits_alone(text: &[u8]) -> bool
    ensures { result ≡ has_digits_alone text.now }
{
    !text.is_empty() && are_digits(text)
}

/// Whether each byte is a digit.
fn are_digits(text: &[u8]) -> bool
    ensures { result ≡ list_all is_ascii_digit text.now }
{
    text.iter().all(|byte| byte.is_ascii_digit())
}

/// The number that decimal digits alone write, if it is at most `most`.
pub(crate) fn number_up_to(text: &[u8], most: u64) -> Option<u64>
    ensures { result ≡ number_up_to most text.now }
{
    if !has_digits_alone(text) {
        return None;
    }
    let Ok(digits) = str::from_utf8(text) else {
        return None;
    };
    let Ok(number) = digits.parse::<u64>() else {
        return None;
    };
    if number > most {
        return None;
    }
    Some(number)
}

/// The same of a u32.
pub(crate) fn small_number_up_to(text: &[u8], most: u32) -> Option<u32>
    ensures { result ≡ number_up_to most text.now }
{
    match number_up_to(text, u64::from(most)) {
        Some(number) => Some(number as u32),
        None => None,
    }
}

/// The two numbers that a separator stands between.
pub(crate) fn pair_in(text: &[u8], separator: u8) -> Option<(u32, u32)>
    ensures { result ≡ pair_in separator text.now }
{
    let mut parts = Parts::new(text, separator);
    let first = parts.take_part()?;
    let second = parts.take_part()?;
    if parts.take_part().is_some() {
        return None;
    }
    let first = small_number_up_to(first, u32::MAX)?;
    let second = small_number_up_to(second, u32::MAX)?;
    Some((first, second))
}

/// The numbers that a text lists, joined by commas: at least one, and at most 1,000,000.
pub(crate) fn order_in(alloc: Global, text: &[u8]) -> Result<Option<Vec<u32>>, NoMemory>
    ensures { IfOk result (λ order. option_map (λ o. o.items) order ≡ order_in text.now) }
{
    let mut order = Vec::new(alloc);
    let mut parts = Parts::new(text, b',');
    while let Some(part) = parts.take_part() {
        let Some(thread) = small_number_up_to(part, u32::MAX) else {
            return Ok(None);
        };
        if order.len() == MOST_TURNS {
            return Ok(None);
        }
        order.push(thread)?;
    }
    Ok(Some(order))
}
