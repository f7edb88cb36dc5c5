//! What comes of a request.

ghost use Rattle.std.specs.Prelude.{◌≡◌, [], ◌∷◌};

use crate::{EventKind, Outcome};
use std::marker::Model;

/// What comes of a request: what is answered, which events are told behind the answer, and whether the exchange goes on.
#[derive(Drop)]
pub struct Reply {
    pub outcome: Outcome,
    pub told: Told,
    pub goes_on: bool,
}

/// At most three events, in their order. Clauses see their list.
#[derive(Drop)]
pub struct Told {
    pub(crate) first: Option<EventKind>,
    pub(crate) second: Option<EventKind>,
    pub(crate) third: Option<EventKind>,
}

impl Model for Told {
    ghost use Rattle.std.specs.Prelude.{List, ◌++◌};
    ghost use Rattle.std.specs.Option.{option_to_list};
    ghost use Rattle.adapter_messages.specs.declared.event.EventKind.{EventKind};

    ghost Value = { List EventKind };

    ghost view = { λ t. option_to_list t.first ++ (option_to_list t.second ++ option_to_list t.third) };
}

impl Told {
    /// No event.
    pub fn none() -> Told
        ensures { result ≡ [] }
    {
        Told {
            first: None,
            second: None,
            third: None,
        }
    }

    /// One event.
    pub fn one(first: EventKind) -> Told
        ensures { result ≡ first ∷ [] }
    {
        Told {
            first: Some(first),
            second: None,
            third: None,
        }
    }

    /// Two events.
    pub fn two(first: EventKind, second: EventKind) -> Told
        ensures { result ≡ first ∷ second ∷ [] }
    {
        Told {
            first: Some(first),
            second: Some(second),
            third: None,
        }
    }

    /// Three events.
    pub fn three(first: EventKind, second: EventKind, third: EventKind) -> Told
        ensures { result ≡ first ∷ second ∷ third ∷ [] }
    {
        Told {
            first: Some(first),
            second: Some(second),
            third: Some(third),
        }
    }
}
