//! Replay by threads, up to the turns that are left.

ghost use Rattle.std.specs.Prelude.{◌≡◌, ◌≤◌, IfOk, length, map};
ghost use Rattle.std.specs.List.{All};
ghost use Rattle.wasm_types.specs.declared.sizes.TheConstants.{MOST_THREADS};
ghost use Rattle.event_core.specs.Opening.{AllFresh, opening_world};
ghost use Rattle.event_core.specs.World.{world_of};
ghost use Rattle.shared_core.specs.Begins.{names_of, lane_names};
ghost use Rattle.replay_gate.specs.Leads.{Leads};
ghost use Rattle.threaded_replay.specs.Work.{opened_thread};

use crate::follower::Follower;
use crate::lawful::are_lawful;
use crate::replaying_work::Replaying;
use event_core::{Thread, World};
use replay_gate::ReadLog;
use rw_objects::Machine;
use shared_core::{History, Hold, Opened, Opening, Striped};
use std::alloc::Global;
use std::marker::PhantomData;
use std::sync::Wait;
use std::thread::Threads;
use wasm_types::NoMemory;
use workers::run_threads;

/// Workers of machines that made no step, each of which follows the log.
fn open_followers<'a, M: Drop, L>(
    alloc: Global,
    machines: Vec<M>,
    log: &'a L,
) -> Result<Vec<Follower<'a, M, L>>, NoMemory>
    ensures threads { IfOk result (λ followers. map (λ w. w.thread) followers.items ≡ map opened_thread machines.items) }
    ensures log { IfOk result (λ followers. All (λ w. w.log.now ≡ log.now) followers.items) }
{
    let mut followers = Vec::new(alloc);
    for machine in machines {
        followers.push(Follower {
            thread: Thread { machine, places: 0 },
            log,
            is_starved: false,
        })?;
    }
    Ok(followers)
}

/// The threads of workers that have stopped, none of which wanted memory.
fn stopped_threads<M: Drop, L>(
    alloc: Global,
    followers: Vec<Follower<'_, M, L>>,
) -> Result<Vec<Thread<M>>, NoMemory>
    ensures { IfOk result (λ threads. threads.items ≡ map (λ w. w.thread) followers.entry.items) }
{
    let mut threads = Vec::new(alloc);
    for follower in followers {
        if follower.is_starved {
            return Err(NoMemory);
        }
        threads.push(follower.thread)?;
    }
    Ok(threads)
}

/// Replays a log by workers, each in a thread of its own, of machines that made no step, over a space that no thread
/// has touched. The world to which they come is one to which a gated run from the log leads; what they leave undone is
/// to be done from there. Where memory is wanted for one of them all others end first, and no world is answered.
pub fn replay_workers<
    S: Striped + Drop + Send + Sync,
    X,
    M: Machine<S, State = X> + Drop + Send + Sync,
    J: Opening<S, S::Value, S::Fixed> + Send + Sync,
    Z: Drop + Send,
    L: ReadLog<Reader = Z> + Sync,
    H: Hold + Sync,
    R: Threads + Wait + Sync,
>(
    rt: &R,
    alloc: Global,
    opened: Opened<S>,
    machines: Vec<M>,
    log: &L,
    hold: &H,
) -> Result<World<M, S>, NoMemory>
where
    S::Op: Send + Sync,
    S::Reply: Send + Sync,
    S::Value: Send + Sync,
    S::Fixed: Send + Sync,
    S::Part: Send + Sync,
    S::Seen: Send + Sync,
    S::Decision: Send + Sync,
    requires chain { opened.chain ≡ J.chain }
    requires named { names_of (S.fixed opened.space) (S.values opened.space) opened.count.name (lane_names opened.lanes) opened.threads ≡ J.named }
    requires threads { length machines.items ≡ opened.threads }
    requires few { length machines.items ≤ MOST_THREADS }
    requires fresh { AllFresh M.code M.state (S.fixed opened.space) machines.items }
    ensures { IfOk result (λ world. Leads S.meaning M.code (L.log log.now) (opening_world M.state (S.fixed opened.space) (S.values opened.space) machines.items) (world_of world)) }
{
    are_lawful::<S, M>();
    let followers = open_followers(alloc, machines, log)?;
    let work = Replaying {
        hold,
        of: PhantomData,
    };
    let (history, followers) = run_threads::<S, J, Follower<'_, M, L>, Replaying<'_, M, L, H>, R>(
        rt, alloc, opened, followers, &work,
    )?;
    let threads = stopped_threads(alloc, followers)?;
    let History {
        order: _,
        entries: _,
        memory,
    } = history;
    Ok(World::resume(threads, memory))
}
