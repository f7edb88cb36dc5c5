//! What holds of the texts of schedules.

ghost use Rattle.std.specs.Prelude.{◌≡◌, ℕ, List, take};
ghost use Rattle.pick_schedule.specs.Schedule.{schedule_of};

/// How many bytes of a text say what the whole of it says: one more than a schedule can have. A line brings a pick,
/// and has at most 14 bytes with its end, as `go 15 1000000`.
pub const SCHEDULE_BEGINNING: usize = 14_000_001;

/// The beginning of a text is the same schedule, or has the same fault, as the text.
pub fn beginnings_say_all()
    ensures { (text : List ℕ) → schedule_of (take SCHEDULE_BEGINNING text) ≡ schedule_of text }
{}
