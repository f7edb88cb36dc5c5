//! What is written to the output, and what is told beside it.

ghost use Rattle.std.specs.Prelude.{◌≡◌, ◌<◌, ◌-◌, ◌^◌, ◌⊎◌, ◌+◌, OnOk, OnErr, IfErr};
ghost use Rattle.commands.specs.declared.fault.Fault.TheVariants as faults;
ghost use Rattle.program.specs.Answers.{WritesSome, IsSaid};

use byte_streams::{Failed, Sink, write_all};
use commands::{Fault, RecordAnswer};

/// Writes a text to the output.
pub(crate) fn show<W: Sink>(output: &mut W, text: &[u8]) -> Result<(), Fault>
    requires { W.failed output.old < 2 ^ 64 - 1 }
    ensures shown { OnOk result (W.takes output.old text.now output.new) }
    ensures begun { OnErr result (WritesSome (W.takes output.old) text.now output.new) }
    ensures none_failed { OnOk result (W.failed output.new ≡ W.failed output.old) }
    ensures one_failed { OnErr result (W.failed output.new ≡ W.failed output.old + 1) }
    ensures error { IfErr result (λ fault. fault ≡ faults.SinkFailed) }
{
    match write_all(output, text) {
        Ok(()) => Ok(()),
        Err(Failed) => Err(Fault::SinkFailed),
    }
}

/// Writes what a recording answers to the output: a text, or lines that are made as they are written.
fn show_recorded<W: Sink>(output: &mut W, answer: &mut RecordAnswer) -> Result<(), Fault>
    requires { W.failed output.old < 2 ^ 64 - 1 }
    ensures shown { OnOk result (W.takes output.old answer.old.text output.new) }
    ensures begun { OnErr result (WritesSome (W.takes output.old) answer.old.text output.new) }
    ensures told { answer.new.told ≡ answer.old.told }
    ensures none_failed { OnOk result (W.failed output.new ≡ W.failed output.old) }
    ensures one_failed { OnErr result (W.failed output.new ≡ W.failed output.old + 1) }
    ensures error { IfErr result (λ fault. fault ≡ faults.SinkFailed) }
{
    match answer.write(output) {
        Ok(()) => Ok(()),
        Err(_) => Err(Fault::SinkFailed),
    }
}

/// Writes what is told beside a text, where it is wanted. Where writing fails there is nobody to tell.
fn tell<E: Sink>(errors: &mut E, wanted: bool, told: &[u8])
    requires { E.failed errors.old < 2 ^ 64 - 1 }
    ensures { IsSaid (λ text. (E.takes errors.old text errors.new) ⊎ (E.failed errors.new ≡ E.failed errors.old + 1)) wanted told.now }
{
    if wanted {
        let _ = write_all(errors, told);
    }
}

/// Shows what a recording or a hunt answers, and what is told beside it, where that is wanted.
pub(crate) fn show_and_tell<W: Sink, E: Sink>(
    output: &mut W,
    errors: &mut E,
    mut answer: RecordAnswer,
    wanted: bool,
) -> Result<(), Fault>
    requires output { W.failed output.old < 2 ^ 64 - 1 }
    requires errors { E.failed errors.old < 2 ^ 64 - 1 }
    ensures shown { OnOk result (W.takes output.old answer.text output.new) }
    ensures told { OnOk result (IsSaid (λ text. (E.takes errors.old text errors.new) ⊎ (E.failed errors.new ≡ E.failed errors.old + 1)) wanted answer.told) }
    ensures begun { OnErr result (WritesSome (W.takes output.old) answer.text output.new) }
    ensures none_failed { OnOk result (W.failed output.new ≡ W.failed output.old) }
    ensures one_failed { OnErr result (W.failed output.new ≡ W.failed output.old + 1) }
    ensures error { IfErr result (λ fault. fault ≡ faults.SinkFailed) }
    ensures untold { OnErr result (errors.new ≡ errors.old) }
{
    match show_recorded(output, &mut answer) {
        Ok(()) => {
            tell(errors, wanted, answer.told());
            Ok(())
        }
        Err(fault) => Err(fault),
    }
}
