//! Moves, and where they lead.

ghost use Rattle.std.specs.Prelude.{◌≡◌, [], map, IfOk, OnErr, OnOk};
ghost use Rattle.debugger.specs.At.{at_of, CanOpen, IsOpenedAs};
ghost use Rattle.debugger.specs.Replies.{GoesBackBy, GoesOut, GoesSteps, IsLed, ReversesTo, RunsOn};
ghost use Rattle.debugger.specs.Watches.{seen_now};

use crate::code_tests::{Behind, Out, depth_in};
use crate::debugger::Debugger;
use crate::watching::{Seen, seen_now};
use replay_session::{Gone, Met, Paused, paused_of};
use std::alloc::Global;
use wasm_types::NoMemory;

impl<'a> Debugger<'a> {
    /// Its way leads to its world.
    fn led(&self)
        ensures { IsLed (at_of self.now) }
    {
        let _world = self.session.world();
    }

    /// Makes steps of a thread, at most so many.
    pub fn go_steps(&mut self, alloc: Global, thread: u32, steps: u32) -> Gone
        ensures opens { IsOpenedAs self.old self.new }
        ensures goes { GoesSteps (at_of self.old) thread steps result (at_of self.new) }
    {
        self.session.thread_steps(alloc, thread, u64::from(steps))
    }

    /// Makes steps of a thread, up to behind the return of the function that it is in.
    pub fn go_out(&mut self, alloc: Global, thread: u32) -> Gone
        ensures opens { IsOpenedAs self.old self.new }
        ensures goes { GoesOut (at_of self.old) thread result (at_of self.new) }
    {
        let depth = depth_in(self.session.world(), thread);
        self.session.thread_until(alloc, thread, &Out { depth })
    }

    /// The numbers that are watched, as they are here.
    fn seen(&self, alloc: Global) -> Result<Vec<Seen>, NoMemory>
        ensures { IfOk result (λ seen. seen.items ≡ map (seen_now (at_of self.now).world) (at_of self.now).watches) }
    {
        seen_now(alloc, self.session.world(), self.watches.as_slice())
    }

    /// Turns of all threads, up to a break, where there are none at instructions and nothing is watched.
    fn run_freely(&mut self, alloc: Global) -> Result<Paused, NoMemory>
        requires instructions { (at_of self.old).instructions ≡ [] }
        requires watches { (at_of self.old).watches ≡ [] }
        ensures opens { IsOpenedAs self.old self.new }
        ensures runs { IfOk result (RunsOn (at_of self.old) (at_of self.new)) }
        ensures unchanged { OnErr result (at_of self.new ≡ at_of self.old) }
    {
        match self.session.run_on(alloc, &self.breaks) {
            Ok(stopped) => Ok(paused_of(stopped)),
            Err(error) => Err(error),
        }
    }

    /// The same, where each step is to be tested.
    fn run_tested(&mut self, alloc: Global) -> Result<Paused, NoMemory>
        ensures opens { IsOpenedAs self.old self.new }
        ensures runs { IfOk result (RunsOn (at_of self.old) (at_of self.new)) }
        ensures unchanged { OnErr result (at_of self.new ≡ at_of self.old) }
    {
        let seen = self.seen(alloc)?;
        let test = Behind {
            places: self.instructions.as_slice(),
            seen: seen.as_slice(),
        };
        match self.session.run_until(alloc, &self.breaks, &test) {
            Ok(how) => Ok(how),
            Err(error) => Err(error),
        }
    }

    /// Turns of all threads, up to a break.
    pub fn run(&mut self, alloc: Global) -> Result<Paused, NoMemory>
        ensures opens { IsOpenedAs self.old self.new }
        ensures runs { IfOk result (RunsOn (at_of self.old) (at_of self.new)) }
        ensures unchanged { OnErr result (at_of self.new ≡ at_of self.old) }
    {
        if self.instructions.is_empty() && self.watches.is_empty() {
            self.run_freely(alloc)
        } else {
            self.run_tested(alloc)
        }
    }

    /// Goes back by so many steps, of whichever threads made them.
    pub fn go_back(&mut self, alloc: Global, steps: u32) -> Result<(), NoMemory>
        requires { CanOpen self.old }
        ensures opens { IsOpenedAs self.old self.new }
        ensures goes { OnOk result (GoesBackBy (at_of self.old) steps (at_of self.new)) }
        ensures unchanged { OnErr result (at_of self.new ≡ at_of self.old) }
    {
        match self.session.back(alloc, u64::from(steps)) {
            Ok(()) => {
                self.led();
                Ok(())
            }
            Err(error) => Err(error),
        }
    }

    /// Goes back to the break before, or to the beginning.
    pub fn go_reverse(&mut self, alloc: Global) -> Result<Option<Met>, NoMemory>
        requires { CanOpen self.old }
        ensures opens { IsOpenedAs self.old self.new }
        ensures goes { IfOk result (ReversesTo (at_of self.old) (at_of self.new)) }
        ensures unchanged { OnErr result (at_of self.new ≡ at_of self.old) }
    {
        let seen = self.seen(alloc)?;
        let test = Behind {
            places: self.instructions.as_slice(),
            seen: seen.as_slice(),
        };
        match self.session.reverse_until(alloc, &self.breaks, &test) {
            Ok(found) => {
                self.led();
                Ok(found)
            }
            Err(error) => Err(error),
        }
    }
}
