//! How many rounds of local steps are tried at once.

ghost use Rattle.std.specs.Prelude.{◌≤◌};
ghost use Rattle.replay_gate.specs.declared.pace.TheConstants.{MOST};

/// The fewest rounds that are tried at once.
const FEWEST: u32 = 16;

/// The most rounds that are tried at once.
const MOST: u32 = 1_048_576;

/// The most rounds that are made turn by turn between two tries.
const LONGEST: u32 = 4096;

/// How many rounds of local steps are tried at once, at most 1,048,576, and how many rounds are first made turn by turn.
/// Where all that were tried could be made, twice as many are next; where hardly any could, none are tried for a
/// while, and for twice as long each time, so that threads that make many events are seldom copied. Only speed depends
/// on it.
#[derive(Clone, Copy, Debug, PartialEq, Eq)]
pub struct Pace {
    tries: u32,
    pause: u32,
    next_pause: u32,
    ghost few: { tries ≤ MOST },
}

impl Pace {
    /// The pace at the beginning.
    pub fn new() -> Pace {
        Pace {
            tries: FEWEST,
            pause: 0,
            next_pause: FEWEST,
        }
    }

    /// How many rounds are tried now, 0 where one is made turn by turn.
    pub fn tries(self) -> u32
        ensures { result ≤ MOST }
    {
        if self.pause > 0 { 0 } else { self.tries }
    }

    /// The pace behind so many rounds that were made at once.
    pub fn behind(self, made: u32) -> Pace {
        if self.pause > 0 {
            Pace {
                tries: self.tries,
                pause: self.pause - 1,
                next_pause: self.next_pause,
            }
        } else if made < FEWEST {
            Pace {
                tries: FEWEST,
                pause: self.next_pause,
                next_pause: self.next_pause.saturating_mul(2).min(LONGEST),
            }
        } else if made < self.tries {
            Pace {
                tries: made,
                pause: 0,
                next_pause: FEWEST,
            }
        } else {
            Pace {
                tries: self.tries.saturating_mul(2).min(MOST),
                pause: 0,
                next_pause: FEWEST,
            }
        }
    }
}
