//! Sessions beside replays whose turns are taken one by one from the opening world: wherever a session goes, forward or
//! back, both stand alike, and its way is the one that the test keeps.

ghost use Rattle.std.specs.Prelude.{◌≡◌, ◌≤◌, ◌∷◌, [], ⊤, option_copied, option_map, slice_get};
ghost use Rattle.replay_tests.specs.Claimed.{scripts_world, scripts_open};
ghost use Rattle.replay_tests.specs.Made.{part_made};
ghost use Rattle.replay_tests.specs.Resting.{resting, few_rested};
ghost use Rattle.scripted.specs.Script.{script_code};

use crate::breaks::{ACCESSES, SUMS};
use crate::logs::{Accesses, ClaimedLog};
use crate::resting::{RestingLog, scripts};
use event_core::World;
use log_pieces::{End, Flat};
use rand_core::utils::NextWord;
use rand_pcg::Pcg32;
use replay_gate::{
    Break, Every, ObjectRange, OpenWorld, ReadLog, Replay, ReplayFault, Stopped, Taken, Turned,
    run_to, turn_to,
};
use replay_session::{Ceased, Gone, Leg, Met, Paused, Session, Test};
use rw_objects::{Count, Entry, Found, Versions};
use scripted::{Cells, Script, ScriptStep, open_scripts};
use std::alloc::Global;
use std::test::Fail;
use wasm_types::{NoMemory, Outcome};

/// A log of threads that rest, which is another's.
#[derive(Clone, Copy)]
pub(crate) struct LentLog<'a> {
    pub(crate) log: &'a RestingLog,
}

impl<'a> ReadLog for LentLog<'a> {
    /// The item that was read last.
    type Reader = Option<Flat<Entry>>;

    ghost log = { λ c. resting c.log.now.claimed.accesses c.log.now.claimed.sums };

    ghost reads = { λ c r. ⊤ };

    ghost holds = { λ r thread. r };

    fn entry(&self, thread: u32, place: u32) -> Option<Flat<Entry>> {
        self.log.entry(thread, place)
    }

    fn reader(&self) -> Option<Flat<Entry>> {
        None
    }

    fn read(&self, reader: &mut Option<Flat<Entry>>, thread: u32, place: u32) {
        *reader = self.entry(thread, place);
    }

    fn held(reader: &Option<Flat<Entry>>, _thread: u32) -> Option<&Flat<Entry>>
        ensures { option_copied result ≡ reader.now }
    {
        reader.as_ref()
    }

    fn end(&self, thread: u32) -> Option<Flat<End>> {
        self.log.end(thread)
    }

    ghost limits = { λ c. few_rested c.log.now.claimed.accesses c.log.now.claimed.sums };
}

/// Three scripts over cells that hold 0.
#[derive(Clone, Copy)]
pub(crate) struct ThreeScripts<'a> {
    pub(crate) first: &'a [ScriptStep],
    pub(crate) second: &'a [ScriptStep],
    pub(crate) third: &'a [ScriptStep],
}

impl<'a> OpenWorld<Script, Cells> for ThreeScripts<'a> {
    ghost opened = { λ s. scripts_world (s.first.now ∷ s.second.now ∷ s.third.now ∷ []) };

    ghost suits = { λ s. 3 ≤ 16 };

    fn open(&self, alloc: Global) -> Result<World<Script, Cells>, NoMemory> {
        let scripts = [self.first, self.second, self.third];
        open_scripts(alloc, &scripts, [0, 0, 0])
    }

    ghost opening = { λ s few. scripts_open (s.first.now ∷ s.second.now ∷ s.third.now ∷ []) few };
}

/// A test of two parts: a thread has made so many steps, or so many others.
#[derive(Clone, Copy)]
pub(crate) struct Made {
    pub(crate) first: u32,
    pub(crate) second: u32,
}

impl Test<Script, Cells> for Made {
    ghost holds = { λ s w t. part_made s.first s.second (option_map (λ th. script_code.steps th.state) (slice_get w.threads t)) };

    fn test(&self, world: &World<Script, Cells>, thread: u32) -> Option<usize> {
        match world.steps(thread) {
            None => None,
            Some(steps) => {
                if steps == self.first {
                    Some(0)
                } else if steps == self.second {
                    Some(1)
                } else {
                    None
                }
            }
        }
    }
}

/// A session of three scripts.
pub(crate) type OfScripts<'a> = Session<Script, Cells, LentLog<'a>, ThreeScripts<'a>>;

/// A replay of them.
type Plain<'a> = Replay<Script, Cells, LentLog<'a>, ThreeScripts<'a>>;

/// What can be seen of a world: how many steps and events each thread has made and how it stands, how often each cell
/// was written and read, and what it holds.
#[derive(Clone, Copy, Debug, PartialEq, Eq)]
pub(crate) struct Seen {
    pub(crate) steps: [Option<u32>; 3],
    places: [Option<u32>; 3],
    outcomes: [Option<Outcome>; 3],
    counts: [Count; 3],
    cells: [u64; 3],
}

pub(crate) fn look(world: &World<Script, Cells>) -> Seen {
    let versions = world.versions();
    Seen {
        steps: [world.steps(0), world.steps(1), world.steps(2)],
        places: [world.places(0), world.places(1), world.places(2)],
        outcomes: [world.outcome(0), world.outcome(1), world.outcome(2)],
        counts: [versions.at(0), versions.at(1), versions.at(2)],
        cells: world.space().cells,
    }
}

/// How many steps the three threads made together.
pub(crate) fn all_steps(world: &World<Script, Cells>) -> u64 {
    let [first, second, third] = look(world).steps;
    u64::from(first.unwrap_or(0)) + u64::from(second.unwrap_or(0)) + u64::from(third.unwrap_or(0))
}

/// A session; a replay whose turns are taken one by one; the threads of these turns, of those that made a step; and the
/// way, as the test keeps it.
#[derive(Drop)]
struct Beside<'a> {
    opens: ThreeScripts<'a>,
    log: LentLog<'a>,
    session: OfScripts<'a>,
    plain: Plain<'a>,
    turns: Vec<u32>,
    legs: Vec<Leg>,
}

/// The replay from the opening world behind these turns.
fn behind<'a>(
    alloc: Global,
    opens: ThreeScripts<'a>,
    log: LentLog<'a>,
    turns: &[u32],
) -> Result<Plain<'a>, NoMemory> {
    let mut plain = Replay::new(alloc, opens, log)?;
    for thread in turns {
        let _ = plain.turn(alloc, *thread);
    }
    Ok(plain)
}

/// Both at the opening world.
fn open_both<'a>(
    alloc: Global,
    opens: ThreeScripts<'a>,
    log: LentLog<'a>,
) -> Result<Beside<'a>, NoMemory> {
    Ok(Beside {
        opens,
        log,
        session: Session::new(alloc, &opens, &log)?,
        plain: behind(alloc, opens, log, &[])?,
        turns: Vec::new(alloc),
        legs: Vec::new(alloc),
    })
}

/// A turn of the plain replay.
fn plain_turn(
    alloc: Global,
    beside: &mut Beside<'_>,
    thread: u32,
) -> Result<Result<Turned, ReplayFault>, NoMemory> {
    let turned = beside.plain.turn(alloc, thread);
    if let Ok(Turned::Local | Turned::Event) = turned {
        beside.turns.push(thread)?;
    }
    Ok(turned)
}

/// Turns of one thread until so many steps were made, or a turn makes none.
fn plain_steps(
    alloc: Global,
    beside: &mut Beside<'_>,
    thread: u32,
    most: u32,
) -> Result<Gone, NoMemory> {
    for made in 0..most {
        let ceased = match plain_turn(alloc, beside, thread)? {
            Ok(Turned::Local | Turned::Event) => Ceased::All,
            Ok(Turned::Done) => Ceased::Done,
            Err(fault) => Ceased::Fault(fault),
        };
        if ceased != Ceased::All {
            let steps = u64::from(made);
            return Ok(Gone { steps, ceased });
        }
    }
    Ok(Gone {
        steps: u64::from(most),
        ceased: Ceased::All,
    })
}

/// Turns of one thread until the test holds behind one, or a turn makes no step, which is within a thousand turns.
fn plain_until(
    alloc: Global,
    beside: &mut Beside<'_>,
    thread: u32,
    test: Made,
) -> Result<Gone, NoMemory> {
    for made in 0..1_000u32 {
        let ceased = match plain_turn(alloc, beside, thread)? {
            Ok(Turned::Local | Turned::Event) => Ceased::All,
            Ok(Turned::Done) => Ceased::Done,
            Err(fault) => Ceased::Fault(fault),
        };
        let steps = u64::from(made);
        if ceased != Ceased::All {
            return Ok(Gone { steps, ceased });
        }
        if test.test(beside.plain.world(), thread).is_some() {
            let steps = steps + 1;
            return Ok(Gone { steps, ceased });
        }
    }
    Ok(Gone {
        steps: 0,
        ceased: Ceased::All,
    })
}

/// A turn of the plain replay, and the tests behind it: what it did where none holds, else why rounds pause there.
fn plain_tested(
    alloc: Global,
    beside: &mut Beside<'_>,
    thread: u32,
    breaks: &[Break],
    test: Made,
) -> Result<Result<Taken, Paused>, NoMemory> {
    let mut reader = beside.plain.reader();
    match turn_to(alloc, &mut beside.plain, &mut reader, thread, breaks) {
        Ok(Taken::Step) => {
            beside.turns.push(thread)?;
            Ok(match test.test(beside.plain.world(), thread) {
                Some(part) => Err(Paused::Met(Met::Test(part))),
                None => Ok(Taken::Step),
            })
        }
        Ok(taken) => Ok(Ok(taken)),
        Err(Stopped::Break(index)) => {
            beside.turns.push(thread)?;
            Ok(Err(Paused::Met(Met::Break(index))))
        }
        Err(Stopped::Fault(fault)) => Ok(Err(Paused::Fault(fault))),
        Err(Stopped::Finished | Stopped::Stuck) => Ok(Err(Paused::Stuck)),
    }
}

/// Turns in rounds until a break or the test holds behind one, or a round makes no step, which is within a thousand
/// rounds.
fn plain_rounds_until(
    alloc: Global,
    beside: &mut Beside<'_>,
    breaks: &[Break],
    test: Made,
) -> Result<Paused, NoMemory> {
    for _ in 0..1_000u32 {
        let before = beside.turns.len();
        let mut rest = Paused::Finished;
        for thread in 0..3 {
            match plain_tested(alloc, beside, thread, breaks, test)? {
                Ok(Taken::Held) => rest = Paused::Stuck,
                Ok(Taken::Done | Taken::Step) => {}
                Err(paused) => return Ok(paused),
            }
        }
        if beside.turns.len() == before {
            return Ok(rest);
        }
    }
    Ok(Paused::Fault(ReplayFault::Stuck))
}

/// Turns in rounds until all threads made so many steps together, which is within a thousand rounds.
fn plain_rounds(alloc: Global, beside: &mut Beside<'_>, until: u64) -> Result<(), NoMemory> {
    for turn in 0..3_000u32 {
        if all_steps(beside.plain.world()) >= until {
            return Ok(());
        }
        let _ = plain_turn(alloc, beside, turn % 3)?;
    }
    Ok(())
}

/// Puts steps of a thread onto a way: they are of the last leg where that is of the thread.
fn put(legs: &mut Vec<Leg>, thread: u32, steps: u64) -> Result<(), NoMemory> {
    let mut all = steps;
    if let Some(
        Leg::Thread {
            thread: last,
            steps: before,
        },
    ) = legs.last().copied()
    {
        if last == thread {
            let _ = legs.pop();
            all = before.saturating_add(steps);
        }
    }
    if all > 0 {
        legs.push(Leg::Thread { thread, steps: all })?;
    }
    Ok(())
}

/// Takes the last steps off a way, leg by leg.
fn take_off(legs: &mut Vec<Leg>, steps: u64) -> Result<(), NoMemory> {
    let mut left = steps;
    for _ in 0..legs.len() {
        let Some(leg) = legs.pop() else {
            return Ok(());
        };
        if leg.steps() > left {
            let steps = leg.steps() - left;
            legs.push(match leg {
                Leg::Thread { thread, .. } => Leg::Thread { thread, steps },
                Leg::Rounds { .. } => Leg::Rounds { steps },
            })?;
            return Ok(());
        }
        left -= leg.steps();
    }
    Ok(())
}

/// A turn of both. Answers whether they answer alike, as the next ones do.
fn turn_both(alloc: Global, beside: &mut Beside<'_>, thread: u32) -> Result<bool, NoMemory> {
    let turned = beside.session.turn(alloc, thread);
    let before = beside.turns.len();
    let want = plain_turn(alloc, beside, thread)?;
    let made = if beside.turns.len() > before { 1 } else { 0 };
    put(&mut beside.legs, thread, made)?;
    Ok(turned == want)
}

/// Turns of one thread, of both.
fn go_both(
    alloc: Global,
    beside: &mut Beside<'_>,
    thread: u32,
    most: u32,
) -> Result<bool, NoMemory> {
    let gone = beside.session.thread_steps(alloc, thread, u64::from(most));
    let want = plain_steps(alloc, beside, thread, most)?;
    put(&mut beside.legs, thread, want.steps)?;
    Ok(gone == want)
}

/// A run of both to breaks. Another replay says where it stops.
fn run_both(alloc: Global, beside: &mut Beside<'_>, breaks: &[Break]) -> Result<bool, NoMemory> {
    let stopped = beside.session.run_on(alloc, breaks)?;
    let mut other = behind(alloc, beside.opens, beside.log, beside.turns.as_slice())?;
    let want = run_to(alloc, &mut other, &[], breaks);
    let before = beside.turns.len();
    plain_rounds(alloc, beside, all_steps(other.world()))?;
    let steps = beside.turns.len().saturating_sub(before) as u64;
    if steps > 0 {
        beside.legs.push(Leg::Rounds { steps })?;
    }
    Ok(stopped == want)
}

/// Turns of one thread up to a test, of both.
fn until_both(
    alloc: Global,
    beside: &mut Beside<'_>,
    thread: u32,
    test: Made,
) -> Result<bool, NoMemory> {
    let gone = beside.session.thread_until(alloc, thread, &test);
    let want = plain_until(alloc, beside, thread, test)?;
    put(&mut beside.legs, thread, want.steps)?;
    Ok(gone == want)
}

/// Rounds of both up to breaks or a test.
fn rounds_both(
    alloc: Global,
    beside: &mut Beside<'_>,
    breaks: &[Break],
    test: Made,
) -> Result<bool, NoMemory> {
    let paused = beside.session.run_until(alloc, breaks, &test)?;
    let before = beside.turns.len();
    let want = plain_rounds_until(alloc, beside, breaks, test)?;
    let steps = beside.turns.len().saturating_sub(before) as u64;
    if steps > 0 {
        beside.legs.push(Leg::Rounds { steps })?;
    }
    Ok(paused == want)
}

/// Both go back: of the plain replay the turns are taken again without the last ones.
fn back_both(alloc: Global, beside: &mut Beside<'_>, steps: u32) -> Result<bool, NoMemory> {
    beside.session.back(alloc, u64::from(steps))?;
    let left = beside.turns.len().saturating_sub(steps as usize);
    beside.turns.truncate(left);
    beside.plain = behind(alloc, beside.opens, beside.log, beside.turns.as_slice())?;
    take_off(&mut beside.legs, u64::from(steps))?;
    Ok(true)
}

/// The break that a word draws.
fn break_of(word: u32) -> Break {
    let thread = (word >> 8) % 3;
    let number = word >> 16;
    match word % 3 {
        0 => Break::Step {
            thread,
            steps: number % 210,
        },
        1 => Break::Place {
            thread,
            place: number % 4,
        },
        _ => Break::Write(ObjectRange {
            from: thread,
            until: 3,
            every: Every::Object,
        }),
    }
}

/// The move that a word draws: of few steps or of many, of one of four threads, of which the last is not there.
fn move_both(alloc: Global, beside: &mut Beside<'_>, word: u32) -> Result<bool, NoMemory> {
    let thread = (word >> 4) % 4;
    let most = if (word >> 8) % 2 == 0 { 4 } else { 300 };
    let steps = (word >> 16) % most;
    let test = Made {
        first: steps,
        second: (word >> 20) % 210,
    };
    match word % 12 {
        0 | 1 => turn_both(alloc, beside, thread),
        2 | 3 => go_both(alloc, beside, thread, steps),
        4 | 5 => run_both(alloc, beside, &[break_of(word >> 3), break_of(word)]),
        6 => until_both(alloc, beside, thread, test),
        7 | 8 => rounds_both(alloc, beside, &[break_of(word >> 3)], test),
        _ => back_both(alloc, beside, steps),
    }
}

/// Whether both stand alike, by a way that is the one that was kept.
fn is_alike(beside: &Beside<'_>) -> bool {
    look(beside.session.world()) == look(beside.plain.world())
        && beside.session.legs() == beside.legs.as_slice()
}

/// The first of forty moves that a number draws behind which both are not alike.
fn differs(
    alloc: Global,
    opens: ThreeScripts<'_>,
    log: LentLog<'_>,
    number: u64,
) -> Result<Option<u32>, NoMemory> {
    let mut beside = open_both(alloc, opens, log)?;
    let mut words = Pcg32::new(number, 54);
    for made in 0..40 {
        let same = move_both(alloc, &mut beside, words.next_word())?;
        if !same || !is_alike(&beside) {
            return Ok(Some(made));
        }
    }
    Ok(None)
}

/// What is claimed in a log of three threads: the accesses, and the sums with which they end.
pub(crate) type Claims = (Accesses, [Option<u64>; 3]);

/// An access that reads an object at this version.
const fn read(object: u32, version: u64) -> Option<Option<Found>> {
    Some(Some(Found::Read { object, version }))
}

/// An access that writes an object at version 0, behind so many reads.
const fn write(object: u32, reads: u64) -> Option<Option<Found>> {
    Some(Some(Found::Write {
        object,
        version: 0,
        reads,
    }))
}

/// Two whole logs, of the first of which rounds make no thread wait, and of the second the last thread goes first; one
/// that lacks an end; and one of which a thread diverges.
fn claims() -> [Claims; 4] {
    let last_first = [
        [read(0, 1), write(1, 2)],
        [write(0, 1), read(1, 0)],
        [read(0, 0), read(1, 0)],
    ];
    let mut diverging = ACCESSES;
    diverging[1][0] = ACCESSES[0][0];
    [
        (ACCESSES, SUMS),
        (last_first, [Some(5), Some(0), Some(0)]),
        (ACCESSES, [Some(0), None, Some(7)]),
        (diverging, SUMS),
    ]
}

/// The log of these claims.
pub(crate) fn log_of(alloc: Global, claims: Claims) -> RestingLog {
    let (accesses, sums) = claims;
    let claimed = ClaimedLog {
        alloc,
        accesses,
        sums,
    };
    RestingLog { claimed }
}

#[test]
fn sessions_go_as_turns_do(rt: HostRuntime) -> Result<(), Fail> {
    let alloc = rt.alloc();
    let [first, second, third] = scripts(alloc)?;
    let opens = ThreeScripts {
        first: &first,
        second: &second,
        third: &third,
    };
    for claims in claims() {
        let log = log_of(alloc, claims);
        for number in 0..25 {
            let differs = differs(alloc, opens, LentLog { log: &log }, number)?;
            assert!(rt; differs.is_none(), "{number} {differs:?}");
        }
    }
    Ok(())
}
