//! Dialogues: lines that come from a source, and answers that go to a sink.

ghost use Rattle.std.specs.Prelude.{◌≡◌, ℕ, ◌+◌, ◌-◌, ◌^◌, ◌<◌, List, ◌++◌, false, IfErr, OnOk, OnErr};
ghost use Rattle.debugger.specs.Answers.{answer_text};
ghost use Rattle.debugger.specs.Lines.{ends, is_end};
ghost use Rattle.debugger.specs.Talks.{RepliesTo, IsTaken, IsBroken, unknown_line};

use crate::answer::Answer;
use crate::command::{Command, Line};
use crate::lines::{Came, next_line};
use byte_streams::{Failed, Sink, Source, write_all};
use std::alloc::Global;

/// What is said of a line that is no command.
const UNKNOWN: &str = "error: no such command, try help\n";

/// What answers commands. Each has a state, from which a command leads to another.
pub trait Respond {
    ghost use Rattle.std.specs.Prelude.{ℕ, List};
    ghost use Rattle.debugger.specs.declared.command.Command.{Command};

    /// The states.
    ghost State: { Type 0 };

    /// The state now.
    ghost state: { Self → State };

    /// Which answers a command may have in a state, and to which state it leads.
    ghost replies: { Command → State → List ℕ → State → Type 0 };

    /// What holds of it before and behind each command.
    ghost suits: { Self → Type 0 };

    /// Does what a command asks for that is not the end, and answers it.
    fn respond(&mut self, alloc: Global, command: Command) -> Answer
        requires suits { suits self.old }
        requires goes_on { ends command ≡ false }
        ensures replies { replies command (state self.old) (answer_text result) (state self.new) }
        ensures suits { suits self.new };
}

/// Why a dialogue stops.
#[derive(Clone, Copy, Debug, PartialEq, Eq)]
pub enum TalkFault {
    /// What brings lines failed.
    SourceFailed,
    /// What takes answers failed.
    SinkFailed,
}

/// Whether a command asks for the end.
pub fn ends(command: Command) -> bool
    ensures { result ≡ ends command }
{
    match command {
        Command::Quit => true,
        Command::Step { .. } | Command::Event { .. } | Command::Finish { .. } => false,
        Command::Continue | Command::Again { .. } | Command::Back { .. } => false,
        Command::Reverse | Command::Goto { .. } | Command::GotoWriter { .. } => false,
        Command::Place { .. } | Command::Function { .. } | Command::Write(_) | Command::Watch(_) =>
            false,
        Command::Delete => false,
        Command::Threads | Command::Where { .. } | Command::Bytes(_) => false,
        Command::Locals { .. } | Command::Stack { .. } | Command::Waits { .. } => false,
        Command::Around { .. } | Command::Object { .. } => false,
        Command::Way | Command::Order => false,
        Command::Writer { .. } | Command::Readers { .. } | Command::Help => false,
    }
}

/// Whether a line asks for the end.
fn is_end(line: Line) -> bool
    ensures { result ≡ is_end line }
{
    match line {
        Line::Command(command) => ends(command),
        Line::Empty | Line::Unknown => false,
    }
}

/// Answers a line.
fn reply<D: Respond, W: Sink>(
    alloc: Global,
    debugger: &mut D,
    line: Line,
    output: &mut W,
) -> Result<(), Failed>
    requires suits { D.suits debugger.old }
    requires output { W.failed output.old < 2 ^ 64 - 1 }
    requires goes_on { is_end line ≡ false }
    ensures suits { D.suits debugger.new }
    ensures replied { OnOk result ((text : List ℕ) × RepliesTo D.replies line (D.state debugger.old) text (D.state debugger.new) × W.takes output.old text output.new) }
    ensures begun { OnErr result ((part : List ℕ) × (rest : List ℕ) × RepliesTo D.replies line (D.state debugger.old) (part ++ rest) (D.state debugger.new) × W.takes output.old part output.new) }
    ensures none_failed { OnOk result (W.failed output.new ≡ W.failed output.old) }
    ensures one_failed { OnErr result (W.failed output.new ≡ W.failed output.old + 1) }
{
    match line {
        Line::Empty => Ok(()),
        Line::Command(command) => debugger.respond(alloc, command).write(output),
        Line::Unknown => write_all(output, UNKNOWN.as_bytes()),
    }
}

/// Answers lines, up to one that asks for the end, or to the end of what comes. Nothing behind that line is read.
pub fn talk<D: Respond, R: Source, W: Sink>(
    alloc: Global,
    debugger: &mut D,
    source: &mut R,
    output: &mut W,
) -> Result<(), TalkFault>
    requires suits { D.suits debugger.old }
    requires source { R.failed source.old < 2 ^ 64 - 1 }
    requires output { W.failed output.old < 2 ^ 64 - 1 }
    ensures done { OnOk result (IsTaken D.replies (λ text. R.brings source.old text source.new) (D.state debugger.old) (R.ended source.new) (λ text. W.takes output.old text output.new)) }
    ensures broken { IfErr result (IsBroken D.replies (λ text. R.brings source.old text source.new) (D.state debugger.old) (R.ended source.new) (λ text. W.takes output.old text output.new) (R.failed source.new ≡ R.failed source.old + 1) (W.failed output.new ≡ W.failed output.old + 1)) }
    ensures source_worked { OnOk result (R.failed source.new ≡ R.failed source.old) }
    ensures output_worked { OnOk result (W.failed output.new ≡ W.failed output.old) }
{
    loop {
        match next_line(source) {
            Err(Failed) => return Err(TalkFault::SourceFailed),
            Ok(Came::Last(line)) => {
                if is_end(line) {
                    return Ok(());
                }
                return match reply(alloc, debugger, line, output) {
                    Ok(()) => Ok(()),
                    Err(Failed) => Err(TalkFault::SinkFailed),
                };
            }
            Ok(Came::Whole(line)) => {
                if is_end(line) {
                    return Ok(());
                }
                match reply(alloc, debugger, line, output) {
                    Ok(()) => {}
                    Err(Failed) => return Err(TalkFault::SinkFailed),
                }
            }
        }
    }
}
