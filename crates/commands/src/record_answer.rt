//! What a recording answers, to be written.

ghost use Rattle.std.specs.Prelude.{◌≡◌, ◌+◌, ◌-◌, ◌^◌, ◌<◌, ◌≤◌, ℕ, List, ◌++◌, IfOk, OnOk, OnErr};
ghost use Rattle.commands.specs.Records.{pieces_text};

use debugger::{Failed, Sink, write_all};
use std::alloc::Global;
use std::marker::Model;
use wasm_record::{LineRoom, Recording};
use wasm_types::NoMemory;

/// A recording whose lines are made as they are written, and the room for it. Contracts see the lines.
#[derive(Drop)]
pub struct RecordedLines {
    recording: Recording,
    size: u32,
    room: LineRoom,
}

impl Model for RecordedLines {
    ghost use Rattle.std.specs.Prelude.{ℕ, List, ◌<◌, ◌≤◌};
    ghost use Rattle.commands.specs.Records.{pieces_text};

    ghost Value = { List ℕ };

    ghost view = { λ l. pieces_text l.size l.recording };

    ghost invariant = { λ l. (0 < l.size) × (l.size ≤ 4096) };
}

impl RecordedLines {
    /// The lines of a recording's pieces of so many entries, and the room for them.
    fn new(alloc: Global, recording: Recording, size: u32) -> Result<RecordedLines, NoMemory>
        requires some { 0 < size }
        requires few { size ≤ 4096 }
        ensures { IfOk result (λ lines. lines ≡ pieces_text size recording) }
    {
        let room = LineRoom::new(alloc)?;
        Ok(RecordedLines {
            recording,
            size,
            room,
        })
    }

    /// Writes the lines, or up to the first call that fails.
    fn write<W: Sink>(&mut self, output: &mut W) -> Result<(), Failed>
        requires { W.failed output.old < 2 ^ 64 - 1 }
        ensures taken { OnOk result (W.takes output.old self.old output.new) }
        ensures none_failed { OnOk result (W.failed output.new ≡ W.failed output.old) }
        ensures begun { OnErr result ((part rest : List ℕ) × (self.old ≡ part ++ rest) × W.takes output.old part output.new) }
        ensures one_failed { OnErr result (W.failed output.new ≡ W.failed output.old + 1) }
    {
        self.recording
            .write_lines(&mut self.room, output, self.size)
    }
}

/// A text that is made, or lines that are made as they are written.
#[derive(Drop)]
pub enum AnswerForm {
    Text(Vec<u8>),
    Lines(RecordedLines),
}

/// What a recording or a hunt answers: the report of a run's end, the lines of its pieces, or another text; and what is
/// told beside it on standard error, which may be nothing. Contracts see both.
#[derive(Drop)]
pub struct RecordAnswer {
    form: AnswerForm,
    told: Vec<u8>,
}

impl Model for RecordAnswer {
    ghost use Rattle.commands.specs.Answered.{form_text};
    ghost use Rattle.commands.specs.Records.{AnswerAt};

    ghost Value = { AnswerAt };

    ghost view = { λ a. record { text = form_text a.form; told = a.told.items } };
}

impl RecordAnswer {
    /// A text that is made, and what is told.
    pub(crate) fn of_text(text: Vec<u8>, told: Vec<u8>) -> RecordAnswer
        ensures text { result.text ≡ text.items }
        ensures told { result.told ≡ told.items }
    {
        RecordAnswer {
            form: AnswerForm::Text(text),
            told,
        }
    }

    /// The lines of a recording's pieces of so many entries, for which room is taken, and what is told.
    pub(crate) fn of_lines(
        alloc: Global,
        recording: Recording,
        size: u32,
        told: Vec<u8>,
    ) -> Result<RecordAnswer, NoMemory>
        requires some { 0 < size }
        requires few { size ≤ 4096 }
        ensures text { IfOk result (λ answer. answer.text ≡ pieces_text size recording) }
        ensures told { IfOk result (λ answer. answer.told ≡ told.items) }
    {
        let lines = RecordedLines::new(alloc, recording, size)?;
        Ok(RecordAnswer {
            form: AnswerForm::Lines(lines),
            told,
        })
    }

    /// What is told beside the text: of a recording the line of the threads that stopped at `--steps`, of a hunt which
    /// run is caught.
    pub fn told(&self) -> &[u8]
        ensures { result.now ≡ self.now.told }
    {
        self.told.as_slice()
    }

    /// Writes the report or the lines, or up to the first call that fails. No memory is wanted for it.
    pub fn write<W: Sink>(&mut self, output: &mut W) -> Result<(), Failed>
        requires { W.failed output.old < 2 ^ 64 - 1 }
        ensures taken { OnOk result (W.takes output.old self.old.text output.new) }
        ensures none_failed { OnOk result (W.failed output.new ≡ W.failed output.old) }
        // After a failure a beginning of the text was taken.
        ensures begun { OnErr result ((part rest : List ℕ) × (self.old.text ≡ part ++ rest) × W.takes output.old part output.new) }
        ensures one_failed { OnErr result (W.failed output.new ≡ W.failed output.old + 1) }
        ensures told { self.new.told ≡ self.old.told }
    {
        match &mut self.form {
            AnswerForm::Text(text) => write_all(output, text),
            AnswerForm::Lines(lines) => lines.write(output),
        }
    }
}
