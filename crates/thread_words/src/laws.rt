//! Laws of the thread step.

ghost use Rattle.thread_words.specs.Fits.{StepsAreSafe, NeverStuck};
ghost use Rattle.thread_words.specs.ThreadFits.{OperandsAreFew, ThreadsAreSafe, ThreadsGoOn};

/// An activation that fits a checked function has a step, which leads to activations that fit.
pub fn steps_are_safe()
    ensures { StepsAreSafe }
{}

/// In a well typed function no activation that is reached lacks a step: no operand, label, place or function is ever
/// missing.
pub fn well_typed_is_never_stuck()
    ensures { NeverStuck }
{}

/// An activation that fits a function of a well typed module has at most as many operands as there are instructions
/// before its place.
pub fn operands_are_few()
    ensures { OperandsAreFew }
{}

/// A thread that fits a well typed module has a step, which leads to threads that fit, whatever the memory replies.
pub fn threads_are_safe()
    ensures { ThreadsAreSafe }
{}

/// In a well typed module no thread of any exported function ever lacks a step, through its start function, its calls,
/// its waits and its returns; and a thread that is done leaves the results of its function.
pub fn threads_go_on()
    ensures { ThreadsGoOn }
{}
