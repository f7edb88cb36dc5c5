//! Spaces of objects.

ghost use Rattle.std.specs.Prelude.{◌≡◌, ℕ, true, length, IfOk, IsTrue, ◌↔◌};
ghost use Rattle.rw_objects.specs.Space.{Space, Fits, RisesFrom, AllBelow, is_ready, reply_of, values_after, SpaceLaws};
ghost use Rattle.rw_objects.specs.Counts.{count_at, counts_after, CanCountAll, all_found};

use crate::entry::{Entry, Kind};
use crate::touches::Touches;
use crate::versions::Versions;
use std::alloc::Global;
use wasm_types::NoMemory;

/// A space of objects, which operations read and write. What an operation answers and changes is one function of the
/// values of the objects that it touches, `meaning`, so it depends on nothing else.
///
/// An operation fits a space where its touches are objects of the space and the numbers that it carries are the
/// space's. All calls and laws speak of operations that fit.
pub trait ObjectSpace {
    /// What can be done to objects.
    type Op: Copy;

    /// What an operation answers.
    type Reply: Copy;

    /// What contracts see of an object.
    type Value;

    /// The numbers of a space that no operation changes, as how many objects it has.
    type Fixed;

    ghost meaning: { Space Self.Op Self.Reply Self.Value Self.Fixed };

    ghost fixed: { Self → Self.Fixed };

    ghost values: { Self → ℕ → Self.Value };

    /// How many objects there are; they are numbered from 0.
    fn objects(&self) -> u32
        ensures { result ≡ meaning.objects (fixed self.now) };

    /// The objects that an operation touches, 1 to 3 of them, in rising order. It takes no memory.
    fn touches(alloc: Global, op: &Self::Op) -> Touches
        ensures { result ≡ meaning.touches op.now };

    /// The kind of an operation's entry.
    fn kind(op: &Self::Op) -> Kind
        ensures { result ≡ meaning.kind op.now };

    /// Whether an operation can be made now. An access always can.
    fn ready(&self, op: &Self::Op) -> bool
        requires { Fits meaning (fixed self.now) op.now }
        ensures { result ≡ is_ready meaning (fixed self.now) (values self.now) op.now };

    /// Makes an operation. It takes no memory.
    fn apply(&mut self, op: &Self::Op) -> Self::Reply
        requires fits { Fits meaning (fixed self.old) op.now }
        requires ready { is_ready meaning (fixed self.old) (values self.old) op.now ≡ true }
        ensures reply { result ≡ reply_of meaning (fixed self.old) (values self.old) op.now }
        ensures values { values self.new ≡ values_after meaning (fixed self.old) (values self.old) op.now }
        ensures fixed { fixed self.new ≡ fixed self.old };

    /// Whether the event of an operation would log this entry. It takes no memory. A space may have a shorter way for
    /// the operations that are made most.
    fn logs(versions: &Versions, op: &Self::Op, entry: &Entry) -> bool
        ensures { IsTrue result ↔ ((meaning.kind op.now ≡ entry.now.kind) × (all_found (meaning.touches op.now) (count_at versions.now) ≡ entry.now.found)) }
    {
        let touches = Self::touches(versions.allocator(), op);
        Self::kind(op) == entry.kind && versions.finds(touches.as_slice(), entry.found.as_slice())
    }

    /// One event: makes a ready operation, counts its touches, and answers its reply and its entry. It takes no memory.
    /// A space may have a shorter way for the operations that are made most.
    fn act(&mut self, versions: &mut Versions, op: &Self::Op) -> (Self::Reply, Entry)
        requires fits { Fits meaning (fixed self.old) op.now }
        requires ready { is_ready meaning (fixed self.old) (values self.old) op.now ≡ true }
        requires rising { RisesFrom 0 (meaning.touches op.now) }
        requires below { AllBelow (length versions.old) (meaning.touches op.now) }
        requires room { CanCountAll (meaning.touches op.now) versions.old }
        ensures reply { result.0 ≡ reply_of meaning (fixed self.old) (values self.old) op.now }
        ensures kind { result.1.kind ≡ meaning.kind op.now }
        ensures found { result.1.found ≡ all_found (meaning.touches op.now) (count_at versions.old) }
        ensures values { values self.new ≡ values_after meaning (fixed self.old) (values self.old) op.now }
        ensures fixed { fixed self.new ≡ fixed self.old }
        ensures counts { count_at versions.new ≡ counts_after (meaning.touches op.now) (count_at versions.old) }
        ensures len { length versions.new ≡ length versions.old }
    {
        let kind = Self::kind(op);
        let touches = Self::touches(versions.allocator(), op);
        let found = versions.touch_all(&touches);
        let reply = self.apply(op);
        (reply, Entry { kind, found })
    }

    /// The bytes that stand for the space at the end of a run.
    fn image(&self, alloc: Global) -> Result<Vec<u8>, NoMemory>
        ensures { IfOk result (λ bytes. bytes.items ≡ meaning.image (fixed self.now) (values self.now)) };

    ghost laws: { SpaceLaws meaning };
}
