//! Lines of a schedule.

ghost use Rattle.std.specs.Prelude.{◌≡◌, ◌<◌, ◌≤◌, ◌^◌, ◌∷◌, [], IfOk, IfSome, option_map, replicate};
ghost use Rattle.std.specs.Result.{result_ok};
ghost use Rattle.text_lines.specs.Parts.{words};
ghost use Rattle.pick_schedule.specs.Schedule.{number_in, picks_of};

use crate::fault::ScheduleCause;
use crate::stretches::{MOST_PICKS, Stretch};
use event_core::{Input, Pick};
use text_lines::{Parts, bits_32, is_integer, spacing_fault};
use wasm_types::LAST_THREAD;

/// The word of a line by which a thread goes on.
const GO: &[u8] = b"go";

/// The word of a line by which the wait of a thread times out.
const OUT: &[u8] = b"out";

/// The picks of a line, or what is wrong in it: its spaces before its words.
pub(crate) fn stretch_of(line: &[u8]) -> Result<Stretch, ScheduleCause>
    ensures picks { option_map (λ s. replicate s.times s.pick) (result_ok result) ≡ picks_of (words line.now) }
    ensures some { IfOk result (λ s. 0 < s.times) }
{
    match stretch_of_words(line) {
        Ok(stretch) => Ok(stretch),
        Err(cause) => match spacing_fault(line) {
            Some(fault) => Err(ScheduleCause::Spacing(fault)),
            None => Err(cause),
        },
    }
}

// The picks of a line, or what is wrong in its words.
fn stretch_of_words(line: &[u8]) -> Result<Stretch, ScheduleCause>
    ensures picks { option_map (λ s. replicate s.times s.pick) (result_ok result) ≡ picks_of (words line.now) }
    ensures some { IfOk result (λ s. 0 < s.times) }
{
    let mut parts = Parts::new(line, b' ');
    let Some(word) = parts.take_part() else {
        return Err(ScheduleCause::FirstWord);
    };
    let Some(thread) = parts.take_part() else {
        return Err(other_words(word));
    };
    let Some(count) = parts.take_part() else {
        return time_out(word, thread);
    };
    match parts.take_part() {
        None => go(word, thread, count),
        Some(_) => Err(other_words(word)),
    }
}

// What is wrong in a line of other words than the first asks for.
fn other_words(first: &[u8]) -> ScheduleCause {
    if first == GO {
        ScheduleCause::GoWords
    } else if first == OUT {
        ScheduleCause::OutWords
    } else {
        ScheduleCause::FirstWord
    }
}

// The pick of `out T`.
fn time_out(word: &[u8], thread: &[u8]) -> Result<Stretch, ScheduleCause>
    ensures picks { option_map (λ s. replicate s.times s.pick) (result_ok result) ≡ picks_of (word.now ∷ thread.now ∷ []) }
    ensures some { IfOk result (λ s. 0 < s.times) }
{
    if word != OUT {
        return Err(other_words(word));
    }
    let Some(thread) = number(thread, 0, LAST_THREAD) else {
        return Err(ScheduleCause::Thread);
    };
    let input = Input::TimeOut;
    Ok(Stretch {
        pick: Pick { thread, input },
        times: 1,
    })
}

// The picks of `go T N`.
fn go(word: &[u8], thread: &[u8], count: &[u8]) -> Result<Stretch, ScheduleCause>
    ensures picks { option_map (λ s. replicate s.times s.pick) (result_ok result) ≡ picks_of (word.now ∷ thread.now ∷ count.now ∷ []) }
    ensures some { IfOk result (λ s. 0 < s.times) }
{
    if word != GO {
        return Err(other_words(word));
    }
    let Some(thread) = number(thread, 0, LAST_THREAD) else {
        return Err(ScheduleCause::Thread);
    };
    let Some(times) = number(count, 1, MOST_PICKS) else {
        return Err(ScheduleCause::Times);
    };
    let input = Input::Go;
    Ok(Stretch {
        pick: Pick { thread, input },
        times,
    })
}

// The integer in decimal that a text is, where it is in this range.
fn number(text: &[u8], least: u32, most: u32) -> Option<u32>
    requires { most < 2 ^ 31 }
    ensures value { result ≡ number_in least most text.now }
    ensures least { IfSome result (λ n. least ≤ n) }
{
    if !is_integer(text) {
        return None;
    }
    let number = bits_32(text)?;
    if least <= number && number <= most {
        Some(number)
    } else {
        None
    }
}
