//! What a thread does next, and its steps on its stacks.

ghost use Rattle.std.specs.Prelude.{◌≡◌, ℕ, ◌+◌, true, false, OnOk, OnErr, IsOk, option_map};
ghost use Rattle.wasm_types.specs.declared.instruction.Instr.{Instr as Instruction};
ghost use Rattle.rw_objects.specs.Code.{TakesReply};
ghost use Rattle.wasm_types.specs.declared.modules.Module.{Module};
ghost use Rattle.thread_words.specs.Thread.{move, time_out};
ghost use Rattle.thread_words.specs.declared.stacks.Stage.TheVariants.{Running};
ghost use Rattle.thread_words.specs.Accesses.{IsAccess};
ghost use Rattle.thread_words.specs.Leaving.{InstructionAt};
ghost use Rattle.thread_words.specs.Moves.{Unchanged, HasRoom};
ghost use Rattle.thread_words.specs.Words.{instance_at};
ghost use Rattle.integer_machine.specs.Meaning.{meaning};
ghost use Rattle.integer_machine.specs.Rooms.{IsNoAccess};
ghost use Rattle.integer_machine.specs.Sound.{Sound, HasMost};
ghost use Rattle.integer_machine.specs.Trying.{IsNextLocal};
ghost use Rattle.thread_words.specs.ThreadCode.{nanos_in, nanos_by, op_of, next_by, local_by, replied_by};

use crate::trying::try_step;
use rw_objects::Next;
use thread_words::{
    Instance, Stacks, Stage, access_of, answer, code_of_function, instruction_at, wake,
};
use validator::Valid;
use wasm_types::{Action, Instr, NoMemory, Op, Reply};

/// Whether an instruction is an access of the memory, or one that asks for its length.
pub(crate) fn is_access(instr: &Instr) -> bool
    ensures access { result ≡ true → IsAccess instr.now }
    ensures no_access { result ≡ false → IsNoAccess instr.now }
{
    matches!(
        *instr,
        Instr::Memory(_, _) | Instr::Pages(_) | Instr::Atomic(_, _)
    )
}

/// An operation that carries the memory's numbers.
#[inline(always)]
pub(crate) fn operation(instance: &Instance, action: Action) -> Op
    ensures { result ≡ op_of (instance_at instance.now) action }
{
    Op {
        extent: instance.extent,
        action,
    }
}

/// What lets a thread that sleeps go on once its time is over, where that has an end.
fn time_out_of(instance: &Instance, address: u32, time: i64) -> Option<Op>
    ensures { result ≡ option_map (op_of (instance_at instance.now)) (time_out instance.now.thread address time) }
{
    if time < 0 {
        return None;
    }
    let thread = instance.thread;
    Some(operation(instance, Action::TimeOut { thread, address }))
}

/// After how many nanoseconds a sleep with this time times out: 0 for one without end.
fn nanos_in(time: i64) -> u64
    ensures { result ≡ nanos_in time }
{
    if time > 0 { time as u64 } else { 0 }
}

/// After how many nanoseconds the sleep of a thread times out: 0 where it does not sleep, or sleeps without a limit of
/// time.
pub(crate) fn nanos_of(m: &Stacks) -> u64
    ensures { (within : Module) → result ≡ nanos_by (meaning within m.now) }
{
    match m.stage {
        Stage::Sleeping { address: _, time } => nanos_in(time),
        Stage::Running | Stage::Ended(_) => 0,
    }
}

/// The instruction at which a thread that runs stands.
#[inline(always)]
fn instruction<'a>(valid: &'a Valid, m: &Stacks) -> &'a Instr
    requires { (i : Instruction) × InstructionAt valid.now m.now.here.function m.now.here.place i }
    ensures { (i : Instruction) → InstructionAt valid.now m.now.here.function m.now.here.place i → result.now ≡ i }
{
    instruction_at(valid, m.here.function, m.here.place)
}

/// What a thread that runs does next.
#[inline(always)]
fn next_running(valid: &Valid, instance: &Instance, m: &Stacks) -> Next<Op>
    requires sound { Sound valid.now instance.now m.now }
    requires running { m.now.stage ≡ Running }
    ensures { result ≡ next_by (instance_at instance.now) (move valid.now (instance_at instance.now) (meaning valid.now m.now)) }
{
    let instr = instruction(valid, m);
    if !is_access(instr) {
        return Next::Local;
    }
    match access_of(m, instance, *instr) {
        Ok(action) => Next::Ask(operation(instance, action)),
        Err(_) => Next::Local,
    }
}

/// What a thread does next.
#[inline(always)]
pub(crate) fn next_of(valid: &Valid, instance: &Instance, m: &Stacks) -> Next<Op>
    requires { Sound valid.now instance.now m.now }
    ensures { result ≡ next_by (instance_at instance.now) (move valid.now (instance_at instance.now) (meaning valid.now m.now)) }
{
    match m.stage {
        Stage::Running => next_running(valid, instance, m),
        Stage::Sleeping { address, time } => {
            let thread = instance.thread;
            Next::Asleep {
                resume: operation(instance, Action::Resume { thread, address }),
                out: time_out_of(instance, address, time),
            }
        }
        Stage::Ended(outcome) => Next::Halted(outcome),
    }
}

/// Makes a local step. Where memory is wanted the thread stays as it was.
#[inline(never)]
pub(crate) fn local_of(valid: &Valid, instance: &Instance, m: &mut Stacks) -> Result<(), NoMemory>
    requires sound { Sound valid.now instance.now m.old }
    requires next { IsNextLocal valid.now instance.now m.old }
    ensures ok { OnOk result (meaning valid.now m.new ≡ local_by (meaning valid.now m.old) (move valid.now (instance_at instance.now) (meaning valid.now m.old))) }
    ensures sound { OnOk result (Sound valid.now instance.now m.new) }
    ensures err { OnErr result (Unchanged m.old m.new) }
    ensures room { (most : ℕ) → HasMost valid.now most → HasRoom (most + 1) m.old → IsOk result }
{
    let code = code_of_function(valid, m.here.function);
    let _tried = try_step(valid, instance, m, code)?;
    Ok(())
}

/// Takes the reply of an operation. Where memory is wanted the thread stays as it was.
#[inline(always)]
pub(crate) fn take_of(
    valid: &Valid,
    instance: &Instance,
    m: &mut Stacks,
    reply: Reply,
) -> Result<(), NoMemory>
    requires sound { Sound valid.now instance.now m.old }
    requires next { TakesReply (next_by (instance_at instance.now) (move valid.now (instance_at instance.now) (meaning valid.now m.old))) }
    ensures ok { OnOk result (meaning valid.now m.new ≡ replied_by (meaning valid.now m.old) (move valid.now (instance_at instance.now) (meaning valid.now m.old)) reply) }
    ensures sound { OnOk result (Sound valid.now instance.now m.new) }
    ensures err { OnErr result (Unchanged m.old m.new) }
    ensures room { HasRoom 1 m.old → IsOk result }
{
    match m.stage {
        Stage::Running => {
            let instr = instruction(valid, m);
            answer(m, *instr, reply)
        }
        _ => wake(m, reply),
    }
}
