//! Which seats can go on.

ghost use Rattle.std.specs.Prelude.{◌≡◌, ℕ, IfOk, true, false, replicate, slice_set};
ghost use Rattle.std.specs.List.{list_any};
ghost use Rattle.shared_core.specs.declared.resting.SeatState.TheVariants.{Goes, RestsUntil, Left};
ghost use Rattle.shared_core.specs.Resting.{awaiting, is_awaited, is_still, none_goes, rests, wakes, with_one};

use std::alloc::Global;
use wasm_types::NoMemory;

/// What a seat does.
#[derive(Clone, Copy, Debug, PartialEq, Eq)]
pub(crate) enum SeatState {
    /// It can enter a call, also where its thread has still to begin.
    Goes,
    /// It enters none before so many calls were entered.
    RestsUntil(u64),
    /// It enters none any more: its thread has left, or none was made.
    Left,
}

impl SeatState {
    /// Whether the seat rests.
    fn rests(self) -> bool
        ensures { result ≡ rests self }
    {
        match self {
            SeatState::RestsUntil(_) => true,
            SeatState::Goes | SeatState::Left => false,
        }
    }

    /// Whether the seat rests until just so many calls were entered.
    fn is_awaited(self, length: u64) -> bool
        ensures { result ≡ is_awaited length self }
    {
        match self {
            SeatState::RestsUntil(until) => until == length,
            SeatState::Goes | SeatState::Left => false,
        }
    }

    /// Whether the seat enters no call while so many were entered: it rests until there are more, or has left.
    fn is_still(self, length: u64) -> bool
        ensures { result ≡ is_still length self }
    {
        match self {
            SeatState::Goes => false,
            SeatState::RestsUntil(until) => length < until,
            SeatState::Left => true,
        }
    }
}

/// Which of the seats that rest are to be woken.
#[derive(Clone, Copy, Debug, PartialEq, Eq)]
pub(crate) enum Wakes {
    /// None.
    Nobody,
    /// The seat with this number.
    One(usize),
    /// All, as more than one is.
    All,
}

impl Wakes {
    /// The same with one seat more.
    fn with(self, number: usize) -> Wakes
        ensures { result ≡ with_one self number }
    {
        match self {
            Wakes::Nobody => Wakes::One(number),
            Wakes::One(_) | Wakes::All => Wakes::All,
        }
    }
}

/// What each seat does, by its number.
#[derive(Debug, Drop)]
pub(crate) struct Resting {
    pub(crate) seats: Vec<SeatState>,
    /// Whether a seat may rest: where not, none does.
    pub(crate) some_rest: bool,
    ghost none_rests: { some_rest ≡ false → list_any rests seats.items ≡ false },
}

impl Resting {
    /// So many seats, each of which can go on.
    pub(crate) fn new(alloc: Global, seats: u8) -> Result<Resting, NoMemory>
        ensures { IfOk result (λ r. r.seats.items ≡ replicate seats Goes) }
    {
        let seats = vec![in alloc; SeatState::Goes; seats as usize]?;
        Ok(Resting {
            seats,
            some_rest: false,
        })
    }

    /// Which seats are to be woken, as they rest until just so many calls were entered as now are. Each call is told,
    /// so a seat is woken once.
    pub(crate) fn entered(&self, length: u64) -> Wakes
        ensures { result ≡ wakes (awaiting length 0 self.now.seats.items) }
    {
        if self.some_rest {
            self.awaiting(length)
        } else {
            Wakes::Nobody
        }
    }

    /// The same, by a look at each seat.
    #[inline(never)]
    fn awaiting(&self, length: u64) -> Wakes
        ensures { result ≡ wakes (awaiting length 0 self.now.seats.items) }
    {
        let mut wakes = Wakes::Nobody;
        for (number, seat) in self.seats.iter().enumerate() {
            if seat.is_awaited(length) {
                wakes = wakes.with(number);
            }
        }
        wakes
    }

    /// A seat rests until `until` calls were entered.
    pub(crate) fn rest(&mut self, seat: u32, until: u64)
        ensures { self.new.seats.items ≡ slice_set self.old.seats.items seat (RestsUntil until) }
    {
        self.some_rest = true;
        self.put(seat, SeatState::RestsUntil(until));
    }

    /// A seat that rested can go on.
    pub(crate) fn goes_on(&mut self, seat: u32)
        ensures { self.new.seats.items ≡ slice_set self.old.seats.items seat Goes }
    {
        self.put(seat, SeatState::Goes);
        self.some_rest = self.some_rests();
    }

    /// A seat has left. Where no seat could go on, none can then.
    pub(crate) fn leave(&mut self, seat: u32)
        ensures seats { self.new.seats.items ≡ slice_set self.old.seats.items seat Left }
        ensures stays { (length : ℕ) → none_goes length self.old.seats.items ≡ true → none_goes length self.new.seats.items ≡ true }
    {
        self.put(seat, SeatState::Left);
    }

    /// Whether no seat enters a call while so many were entered: each rests until there are more, or has left.
    pub(crate) fn none_goes(&self, length: u64) -> bool
        ensures { result ≡ none_goes length self.now.seats.items }
    {
        self.seats.iter().all(|seat| seat.is_still(length))
    }

    /// Notes what a seat does.
    fn put(&mut self, seat: u32, standing: SeatState)
        requires rests { rests standing ≡ true → self.old.some_rest ≡ true }
        ensures { self.new.seats.items ≡ slice_set self.old.seats.items seat standing }
    {
        if let Some(place) = self.seats.get_mut(seat as usize) {
            *place = standing;
        }
    }

    /// Whether a seat rests.
    fn some_rests(&self) -> bool
        ensures { result ≡ list_any rests self.now.seats.items }
    {
        self.seats.iter().any(|seat| seat.rests())
    }
}
