//! Replies to requests.

ghost use Rattle.std.specs.Prelude.{◌≡◌, IfOk};
ghost use Rattle.adapter.specs.Replies.{ended, failure, put_out, stopped, success};

use adapter_messages::{Body, Category, EventKind, Outcome, Reply, StopReason, Text, Told};
use std::alloc::Global;
use wasm_types::NoMemory;

/// A success.
pub(crate) fn success(body: Body, told: Told) -> Reply
    ensures { result ≡ success body told }
{
    Reply {
        outcome: Outcome::Success(body),
        told,
        goes_on: true,
    }
}

/// A success that ends the exchange.
pub(crate) fn ended() -> Reply
    ensures { result ≡ ended Body.Empty }
{
    Reply {
        outcome: Outcome::Success(Body::Empty),
        told: Told::none(),
        goes_on: false,
    }
}

/// The reply of a request that can't be done, with a line that says why.
pub fn failure(alloc: Global, message: &str) -> Result<Reply, NoMemory>
    ensures { IfOk result (λ reply. reply ≡ failure message.now) }
{
    let message = Text::new(alloc, message)?;
    Ok(Reply {
        outcome: Outcome::Failure(message),
        told: Told::none(),
        goes_on: true,
    })
}

/// That every thread stands.
pub(crate) fn stopped(reason: StopReason, thread: u64) -> EventKind
    ensures { result ≡ stopped reason thread }
{
    EventKind::Stopped {
        reason,
        thread,
        all_threads: true,
    }
}

/// A line that is put out.
pub(crate) fn put_out(alloc: Global, line: &str) -> Result<EventKind, NoMemory>
    ensures { IfOk result (λ event. event ≡ put_out line.now) }
{
    Ok(EventKind::Output {
        category: Category::Important,
        text: Text::new(alloc, line)?,
    })
}
