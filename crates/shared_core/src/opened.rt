//! How a shared space begins.

ghost use Rattle.std.specs.Prelude.{◌≡◌, ◌+◌, ◌<◌, IfOk, OnOk, length, replicate, [], ◌∷◌, slice_index_or, box_value};
ghost use Rattle.shared_parts.specs.Parts.{IsPart, AreParts};
ghost use Rattle.shared_parts.specs.Eights.{totals_by};
ghost use Rattle.shared_core.specs.Begins.{names_of, lane_names};
ghost use Rattle.rw_objects.specs.Counts.{no_count, no_counts};
ghost use Rattle.shared_parts.specs.Cut.{AllSound};
ghost use Rattle.rw_objects.specs.Memory.{memory_with};
ghost use Rattle.shared_parts.specs.Calls.{IsNumbered, AreNew};

use crate::gates::Gates;
use crate::journal::Journal;
use crate::openings::Openings;
use crate::parts::LockedParts;
use crate::resting::Resting;
use crate::shared::Shared;
use crate::waking::Conditions;
use crossbeam_utils::CachePadded;
use log_pieces::PackedEntries;
use rw_objects::{ObjectSpace, Versions};
use shared_parts::{
    Call, CallLedger, Eight, Held, Lane, Opening, Pile, Reached, Seat, SecondHalf, Stripe, Striped,
    Unnamed, UnnamedNumber, Written,
};
use std::alloc::Global;
use std::boxed::Box;
use std::sync::ledger::{Blank, Share};
use std::sync::{Mutex, RwLock};
use wasm_types::NoMemory;

/// A space with no calls, which has no name yet.
#[derive(Drop)]
pub struct Opened<S: Striped> {
    pub space: S,
    pub chain: Unnamed<Call<S::Op, S::Reply>>,
    pub count: Blank,
    pub lanes: Eight<UnnamedNumber>,
    pub threads: u8,
    ghost counted: { count.parts ≡ threads + 1 },
}

impl<S: Striped + Drop> Opened<S> {
    /// A space for so many threads.
    pub fn new(space: S, threads: u8) -> Opened<S>
        ensures { (result.space ≡ space) × (result.threads ≡ threads) }
    {
        Opened {
            space,
            chain: Unnamed::new(),
            count: Blank::new(u64::from(threads) + 1),
            lanes: Eight {
                zero: UnnamedNumber::new(),
                one: UnnamedNumber::new(),
                two: UnnamedNumber::new(),
                three: UnnamedNumber::new(),
                four: UnnamedNumber::new(),
                five: UnnamedNumber::new(),
                six: UnnamedNumber::new(),
                seven: UnnamedNumber::new(),
            },
            threads,
        }
    }
}

/// A part under its lock, and what the journal knows of its writes.
fn stripe<S: Striped, J: Opening<S, S::Value, S::Fixed>, const I: u64>(
    number: UnnamedNumber,
    part: Box<S::Part>,
    reached: &Reached<Call<S::Op, S::Reply>, J>,
) -> (SecondHalf<Lane<S, J, I>>, RwLock<Stripe<S, J, I>>)
    requires low { I < 8 }
    requires name { number ≡ slice_index_or J.named.lanes I 0 }
    requires reached { reached.now ≡ [] }
    requires part { IsPart S.lane S.part_fixed S.held I J.named.memory.fixed J.named.memory.values (box_value part) }
    ensures { result.0 ≡ 0 }
{
    let (times, written) = number.named::<Lane<S, J, I>>();
    let stripe = Stripe {
        part,
        times,
        reached: reached.again(),
    };
    (written, RwLock::new(stripe))
}

/// All parts under their locks, and what the journal knows of their writes.
fn stripes<S: Striped, J: Opening<S, S::Value, S::Fixed>>(
    lanes: Eight<UnnamedNumber>,
    parts: Eight<Box<S::Part>>,
    reached: &Reached<Call<S::Op, S::Reply>, J>,
) -> (Written<S, J>, LockedParts<S, J>)
    requires names { J.named.lanes ≡ lane_names lanes }
    requires reached { reached.now ≡ [] }
    requires parts { AreParts S.lane S.part_fixed S.held J.named.memory.fixed J.named.memory.values parts }
    ensures { result.0 ≡ totals_by (λ i. 0) }
{
    let (zero, a) = stripe(lanes.zero, parts.zero, reached);
    let (one, b) = stripe(lanes.one, parts.one, reached);
    let (two, c) = stripe(lanes.two, parts.two, reached);
    let (three, d) = stripe(lanes.three, parts.three, reached);
    let (four, e) = stripe(lanes.four, parts.four, reached);
    let (five, f) = stripe(lanes.five, parts.five, reached);
    let (six, g) = stripe(lanes.six, parts.six, reached);
    let (seven, h) = stripe(lanes.seven, parts.seven, reached);
    let written = Written {
        zero,
        one,
        two,
        three,
        four,
        five,
        six,
        seven,
    };
    let parts = LockedParts {
        zero: a,
        one: b,
        two: c,
        three: d,
        four: e,
        five: f,
        six: g,
        seven: h,
    };
    (written, parts)
}

/// What takes memory of a space with no calls, but its seats.
#[derive(Drop)]
struct Room<S: Striped> {
    resting: Resting,
    gates: Gates,
    versions: Versions,
    parts: Eight<Box<S::Part>>,
}

/// Makes room for what each seat does and waits for and for the versions of all objects, and splits a space.
fn make_room<S: Striped + Drop>(alloc: Global, space: S, threads: u8) -> Result<Room<S>, NoMemory>
    ensures versions { IfOk result (λ r. r.versions ≡ replicate (S.meaning.objects (S.fixed space)) no_count) }
    ensures parts { IfOk result (λ r. AreParts S.lane S.part_fixed S.held (S.fixed space) (S.values space) r.parts) }
    ensures sound { OnOk result (AllSound S.cut (S.fixed space) (S.values space)) }
{
    let resting = Resting::new(alloc, threads)?;
    let gates = Gates::new(alloc, threads)?;
    let versions = Versions::new(alloc, space.objects())?;
    let parts = space.split(alloc)?;
    Ok(Room {
        resting,
        gates,
        versions,
        parts,
    })
}

/// A seat for each thread, with its share of the ledger of calls. The rest of the share is answered too.
fn seats<S: Striped, J: Opening<S, S::Value, S::Fixed>>(
    alloc: Global,
    threads: u8,
    share: Share<CallLedger<S, J>>,
    reached: &Reached<Call<S::Op, S::Reply>, J>,
) -> Result<(Vec<Seat<S, J>>, Share<CallLedger<S, J>>), NoMemory>
    requires parts { share.parts ≡ threads + 1 }
    requires amount { share.amount ≡ 0 }
    requires reached { reached.now ≡ [] }
    ensures seats { IfOk result (λ r. (length r.0.items ≡ threads) × IsNumbered 0 r.0.items × AreNew r.0.items) }
    ensures rest { IfOk result (λ r. (r.1.parts ≡ 1) × (r.1.amount ≡ 0)) }
{
    let mut share = share;
    let mut seats = Vec::new(alloc);
    for thread in 0..threads {
        let own = share.split_off(1, 0);
        seats.push(Seat {
            thread,
            entries: PackedEntries::new(alloc),
            calls: Pile::new(),
            share: own,
            reached: reached.again(),
            seen: Vec::new(alloc),
            shut_at: None,
        })?;
    }
    Ok((seats, share))
}

impl<S: Striped + Drop, J: Opening<S, S::Value, S::Fixed>> Shared<S, J> {
    /// A shared space with no calls, and a seat for each thread.
    pub fn new(
        alloc: Global,
        opened: Opened<S>,
    ) -> Result<(Shared<S, J>, Vec<Seat<S, J>>), NoMemory>
        requires chain { opened.chain ≡ J.chain }
        requires named { names_of (S.fixed opened.space) (S.values opened.space) opened.count.name (lane_names opened.lanes) opened.threads ≡ J.named }
        ensures seats { IfOk result (λ r. (length r.1.items ≡ J.named.threads) × IsNumbered 0 r.1.items × AreNew r.1.items) }
    {
        let Opened {
            space,
            chain,
            count,
            lanes,
            threads,
        } = opened;
        let Room {
            resting,
            gates,
            versions,
            parts,
        } = make_room(alloc, space, threads)?;
        let latest = chain.named::<J>();
        let (book, share) = count.open::<CallLedger<S, J>>();
        let reached = latest.reached();
        let (seats, rest) = seats(alloc, threads, share, &reached)?;
        let (written, parts) = stripes(lanes, parts, &reached);
        let held = Held {
            versions,
            order: Vec::new(alloc),
            latest,
            written,
            book,
            rest,
        };
        let shared = Shared {
            parts,
            journal: Mutex::new(CachePadded::new(Journal {
                held,
                resting,
                gates,
            })),
            changed: Conditions::new(),
            openings: Openings::new(),
        };
        Ok((shared, seats))
    }
}
