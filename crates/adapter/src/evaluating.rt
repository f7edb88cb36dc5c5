//! Expressions that are evaluated.

ghost use Rattle.std.specs.Prelude.{◌≡◌, ◌⊎◌, false, IfOk, OnErr};
ghost use Rattle.debugger.specs.Answers.{answer_text};
ghost use Rattle.debugger.specs.Lines.{ends, line_of};
ghost use Rattle.adapter.specs.Evaluates.{EvaluatesLine, Obeys, moves, told_if};
ghost use Rattle.adapter.specs.State.{Suits, state_of};
ghost use Rattle.adapter_messages.specs.declared.reply.Reply.{Reply};

use crate::adapter::Adapter;
use crate::replies::{failure, stopped, success};
use adapter_messages::{Body, Reply, StopReason, Text, Told};
use debugger::{Answer, Command, Line, Respond, ends, read_line};
use std::alloc::Global;
use wasm_types::NoMemory;

/// What is said of the command that ends a dialogue.
const QUIT_REFUSED: &str = "error: the session ends by disconnect";

/// What is said of an expression that is no command.
const NO_COMMAND: &str = "error: no such command, try help";

/// Whether a command may lead elsewhere on the way.
fn moves(command: Command) -> bool
    ensures { result ≡ moves command }
{
    match command {
        Command::Step { .. } | Command::Event { .. } | Command::Finish { .. } => true,
        Command::Continue | Command::Again { .. } | Command::Back { .. } => true,
        Command::Reverse | Command::Goto { .. } | Command::GotoWriter { .. } => true,
        Command::Place { .. } | Command::Function { .. } | Command::Write(_) | Command::Watch(_) =>
            false,
        Command::Delete => false,
        Command::Threads | Command::Where { .. } | Command::Bytes(_) => false,
        Command::Locals { .. } | Command::Stack { .. } | Command::Waits { .. } => false,
        Command::Around { .. } | Command::Object { .. } => false,
        Command::Way | Command::Order => false,
        Command::Writer { .. } | Command::Readers { .. } | Command::Help => false,
        Command::Quit => false,
    }
}

/// What the client is told behind a command.
fn told_if(moves: bool) -> Told
    ensures { result ≡ told_if moves }
{
    if moves {
        Told::one(stopped(StopReason::Pause, 1))
    } else {
        Told::none()
    }
}

/// The text of an answer.
fn text_of(alloc: Global, answer: &Answer) -> Result<Text, NoMemory>
    ensures { IfOk result (λ text. text ≡ answer_text answer.now) }
{
    let text = answer.text(alloc)?;
    Ok(Text::new(alloc, text.as_str())?)
}

impl<'a> Adapter<'a> {
    /// Does what a command asks for that is not the end.
    fn obey(&mut self, alloc: Global, command: Command) -> Result<Reply, NoMemory>
        requires suits { Suits self.old }
        requires goes_on { ends command ≡ false }
        ensures obeys { IfOk result (λ reply. Obeys command (state_of self.old) reply (state_of self.new)) }
        ensures wanting { OnErr result ((reply : Reply) × Obeys command (state_of self.old) reply (state_of self.new)) }
        ensures suits { Suits self.new }
    {
        let answer = self.debugger.respond(alloc, command);
        self.functions = self.functions.min(self.debugger.instructions().len());
        let result = text_of(alloc, &answer)?;
        let body = Body::Evaluated {
            result,
            reference: 0,
        };
        Ok(success(body, told_if(moves(command))))
    }

    /// Evaluates an expression.
    pub(crate) fn evaluate(&mut self, alloc: Global, expression: &Text) -> Result<Reply, NoMemory>
        requires { Suits self.old }
        ensures evaluates { IfOk result (λ reply. EvaluatesLine (line_of expression.now) (state_of self.old) reply (state_of self.new)) }
        ensures wanting { OnErr result ((state_of self.new ≡ state_of self.old) ⊎ ((reply : Reply) × EvaluatesLine (line_of expression.now) (state_of self.old) reply (state_of self.new))) }
        ensures suits { Suits self.new }
    {
        match read_line(expression.as_str().as_bytes()) {
            Line::Command(command) => {
                if ends(command) {
                    failure(alloc, QUIT_REFUSED)
                } else {
                    self.obey(alloc, command)
                }
            }
            Line::Empty | Line::Unknown => failure(alloc, NO_COMMAND),
        }
    }
}
