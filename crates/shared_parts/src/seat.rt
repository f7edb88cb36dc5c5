//! The seats of threads.

ghost use Rattle.std.specs.Prelude.{◌≡◌, ◌+◌, ℕ, [], IfOk, OnOk, length};
ghost use Rattle.rw_objects.specs.Space.{Fits};
ghost use Rattle.shared_parts.specs.Cut.{sights, decision_at};
ghost use Rattle.shared_parts.specs.Calls.{IsWithin, entries_in, part_of};

use crate::{Call, CallLedger, Keeps, Latest, Opening, Pile, Reached, Striped};
use log_pieces::PackedEntries;
use rw_objects::{ObjectSpace, Touches};
use std::marker::Model;
use std::sync::ledger::Share;
use wasm_types::NoMemory;

/// A thread's own calls, with what shows that they stand in the journal. What they asked and were answered is known to
/// proofs alone: at run time there are their entries, in the bytes by which pieces spell them.
#[derive(Drop)]
pub struct Seat<S: Striped, J: Opening<S, S::Value, S::Fixed>> {
    pub thread: u8,
    pub entries: PackedEntries,
    pub calls: Pile<Call<S::Op, S::Reply>>,
    pub share: Share<CallLedger<S, J>>,
    pub reached: Reached<Call<S::Op, S::Reply>, J>,
    /// What the last call saw of each object, a list that is used again.
    pub seen: Vec<S::Seen>,
    /// With how many calls entered the gate of its next call was shut, where it was noted as shut.
    pub shut_at: Option<u64>,
}

impl<S: Striped, J: Opening<S, S::Value, S::Fixed>> Model for Seat<S, J> {
    ghost use Rattle.std.specs.Prelude.{◌≡◌, length};
    ghost use Rattle.shared_parts.specs.Calls.{Part, part_of, entries_in, IsWithin};

    ghost Value = { Part S.Op S.Reply };

    ghost view = { λ s. record { thread = s.thread; calls = s.calls } };

    ghost invariant = { λ s. (s.share.parts ≡ 1) × (s.share.amount ≡ length s.calls) × (s.entries ≡ entries_in s.calls) × IsWithin s.calls (part_of s.thread s.reached) };
}

/// What an operation sees of the objects that it touches, whatever the space is of which the parts are parts.
fn look<S: Striped, J: Opening<S, S::Value, S::Fixed>, K: Keeps<S, J>>(
    kept: &K,
    touches: &Touches,
    op: &S::Op,
    seen: &mut Vec<S::Seen>,
) -> Result<(), NoMemory>
    requires empty { seen.old.items ≡ [] }
    requires fits { Fits S.meaning J.named.memory.fixed op.now }
    requires touches { touches.now ≡ S.meaning.touches op.now }
    requires covers { K.covers kept.now touches.now }
    ensures { OnOk result ((values : ℕ → S.Value) → K.here kept.now values → seen.new.items ≡ sights S.meaning S.cut J.named.memory.fixed values op.now) }
{
    for touch in touches.as_slice() {
        seen.push(kept.look(touch.object, op))?;
    }
    Ok(())
}

impl<S: Striped, J: Opening<S, S::Value, S::Fixed>> Seat<S, J> {
    /// Its thread.
    pub fn thread(&self) -> u32
        ensures { result ≡ self.now.thread }
    {
        u32::from(self.thread)
    }

    /// Its calls stand in the journal, in their order.
    pub(crate) fn stands_in(&self, journal: &Latest<Call<S::Op, S::Reply>, J>)
        ensures { IsWithin self.now.calls (part_of self.now.thread journal.now) }
    {
        journal.meet(&self.reached);
    }

    /// What an operation decides by what the parts that it touches hold, whatever the space is of which they are parts.
    pub fn decide<K: Keeps<S, J>>(
        &mut self,
        kept: &K,
        touches: &Touches,
        op: &S::Op,
    ) -> Result<S::Decision, NoMemory>
        requires fits { Fits S.meaning J.named.memory.fixed op.now }
        requires touches { touches.now ≡ S.meaning.touches op.now }
        requires covers { K.covers kept.now touches.now }
        ensures kept { self.new ≡ self.old }
        ensures decided { IfOk result (λ d. (values : ℕ → S.Value) → K.here kept.now values → d ≡ decision_at S.meaning S.cut J.named.memory.fixed values op.now) }
    {
        self.seen.clear();
        look(kept, touches, op, &mut self.seen)?;
        Ok(S::decide(op, self.seen.as_slice()))
    }

    /// Notes with how many calls entered the gate of its next call was shut, if it was.
    pub fn note_shut(&mut self, shut_at: Option<u64>)
        ensures { self.new ≡ self.old }
    {
        self.shut_at = shut_at;
    }

    /// The entries of its calls.
    pub fn entries(&self) -> &PackedEntries
        ensures { result.now ≡ entries_in self.now.calls }
    {
        &self.entries
    }
}
