//! What is answered to a line.

ghost use Rattle.std.specs.Prelude.{◌≡◌, ℕ, ◌+◌, ◌-◌, ◌^◌, ◌<◌, ◌≤◌, List, ◌++◌, IfOk, OnOk, OnErr, length, string_bytes};
ghost use Rattle.debugger.specs.Answers.{answer_text, body_text, memory_line};

use arrayvec::ArrayString;
use byte_streams::{Failed, Sink, write_all};
use std::alloc::Global;
use wasm_types::NoMemory;

/// What is said where memory could not be had.
const NO_MEMORY: &str = "error: memory\n";

/// What is answered to a line: a line that takes no memory, perhaps of no bytes, and lines for which memory is wanted.
#[derive(Drop)]
pub struct Answer {
    pub head: ArrayString<64>,
    pub body: Result<String, NoMemory>,
}

/// An answer of one line.
pub(crate) fn line(alloc: Global, text: &str) -> Answer
    requires { length text.now ≤ 64 }
    ensures { answer_text result ≡ text.now }
{
    let mut head = ArrayString::<64>::new();
    head.push_str(text);
    Answer::of_line(alloc, head)
}

/// An answer of lines for which memory is wanted.
pub(crate) fn lines(body: Result<String, NoMemory>) -> Answer
    ensures { answer_text result ≡ body_text body }
{
    Answer {
        head: ArrayString::<64>::new(),
        body,
    }
}

/// An answer where memory could not be had.
pub(crate) fn wanting() -> Answer
    ensures { answer_text result ≡ memory_line }
{
    lines(Err(NoMemory))
}

impl Answer {
    /// An answer of one line, which takes no memory.
    pub(crate) fn of_line(alloc: Global, head: ArrayString<64>) -> Answer
        ensures { answer_text result ≡ head.bytes }
    {
        Answer {
            head,
            body: Ok(String::new(alloc)),
        }
    }

    /// The lines behind the first, or that memory could not be had for them.
    fn body(&self) -> &str
        ensures { result.now ≡ body_text self.now.body }
    {
        match &self.body {
            Ok(text) => text.as_str(),
            Err(_) => NO_MEMORY,
        }
    }

    /// Its text.
    pub fn text(&self, alloc: Global) -> Result<String, NoMemory>
        ensures { IfOk result (λ text. string_bytes text ≡ answer_text self.now) }
    {
        let mut text = String::from_str(alloc, self.head.as_str())?;
        text.push_str(self.body())?;
        Ok(text)
    }

    /// Writes it.
    pub(crate) fn write<W: Sink>(&self, output: &mut W) -> Result<(), Failed>
        requires { W.failed output.old < 2 ^ 64 - 1 }
        ensures taken { OnOk result (W.takes output.old (answer_text self.now) output.new) }
        ensures none_failed { OnOk result (W.failed output.new ≡ W.failed output.old) }
        ensures begun { OnErr result ((part rest : List ℕ) × (answer_text self.now ≡ part ++ rest) × W.takes output.old part output.new) }
        ensures one_failed { OnErr result (W.failed output.new ≡ W.failed output.old + 1) }
    {
        match write_all(output, self.head.as_str().as_bytes()) {
            Ok(()) => write_all(output, self.body().as_bytes()),
            Err(Failed) => Err(Failed),
        }
    }
}
