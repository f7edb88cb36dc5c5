//! What answers requests.

use crate::Command;
use crate::reply::Reply;
use std::alloc::{AllocError, Global};

/// What answers requests. Each has a state, from which a request leads to another.
pub trait Attend {
    ghost use Rattle.std.specs.Prelude.{◌≡◌, ◌⊎◌, Bool, false, IfOk, OnErr};
    ghost use Rattle.adapter_messages.specs.declared.request.Command.{Command};
    ghost use Rattle.adapter_messages.specs.declared.reply.Reply.{Reply};

    /// The states.
    ghost State: { Type 0 };

    /// The state now.
    ghost state: { Self → State };

    /// Which requests are held back in a state: whoever runs the exchange answers them.
    ghost holds_back: { Command → State → Bool };

    /// Which replies a request may have in a state, and to which state it leads.
    ghost attends: { Command → State → Reply → State → Type 0 };

    /// What holds of it before and behind each request.
    ghost suits: { Self → Type 0 };

    /// Whether a request is held back.
    fn waits_for(&self, command: &Command) -> bool
        requires { suits self.now }
        ensures { result ≡ holds_back command.now (state self.now) };

    /// Does what a request asks for that is not held back, and says what comes of it. Where memory is wanting, it is
    /// done, and only the reply is wanting, or the state is as before.
    fn attend(&mut self, alloc: Global, command: &Command) -> Result<Reply, AllocError>
        requires suits { suits self.old }
        requires is_free { holds_back command.now (state self.old) ≡ false }
        ensures attends { IfOk result (λ reply. attends command.now (state self.old) reply (state self.new)) }
        ensures wanting { OnErr result ((state self.new ≡ state self.old) ⊎ ((reply : Reply) × attends command.now (state self.old) reply (state self.new))) }
        ensures suits { suits self.new };
}
