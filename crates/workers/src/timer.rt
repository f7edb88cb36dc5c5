//! Timers: what says that a wait has timed out.

ghost use Rattle.std.specs.Prelude.{◌≡◌, ℕ, Bool, true};

/// Says when a wait has timed out.
pub trait Timer {
    /// Whether it can ever say so, of a thread and a number of nanoseconds.
    ghost can_expire: { ℕ → ℕ → Bool };

    /// Whether a thread that sleeps has waited for so many nanoseconds. `changes` is how many calls were entered since
    /// it fell asleep.
    fn expired(&self, thread: u32, nanos: u64, changes: u64) -> bool
        ensures { result ≡ true → can_expire thread nanos ≡ true };
}

/// No wait ever times out.
#[derive(Clone, Copy, Debug, Drop)]
pub struct Never;

impl Timer for Never {
    ghost use Rattle.std.specs.Prelude.{false};

    ghost can_expire = { λ thread nanos. false };

    fn expired(&self, _thread: u32, _nanos: u64, _changes: u64) -> bool {
        false
    }
}

/// Each wait with a limit of time times out where nobody has woken it yet.
#[derive(Clone, Copy, Debug, Drop)]
pub struct AtOnce;

impl Timer for AtOnce {
    ghost use Rattle.std.specs.Prelude.{true};

    ghost can_expire = { λ thread nanos. true };

    fn expired(&self, _thread: u32, _nanos: u64, _changes: u64) -> bool {
        true
    }
}
