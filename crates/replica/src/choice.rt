//! Which objects are listed.

ghost use Rattle.std.specs.Prelude.{◌≡◌, ◌==◌, ℕ, length, IfOk};
ghost use Rattle.std.specs.List.{list_any};
ghost use Rattle.std.specs.BTreeSet.{contains};
ghost use Rattle.std.specs.Ordering.{nat_cmp};
ghost use Rattle.replica.specs.Chosen.{asked_of, is_shared, is_chosen, is_named};

use crate::touch::{ObjectTouch, has_other, has_write};
use std::alloc::{AllocError, Global};
use std::collections::BTreeSet;
use std::marker::Model;

/// Which objects are listed.
#[derive(Clone, Copy, Debug)]
pub struct Choice<'a> {
    /// These alone; all where none is named.
    pub only: &'a [u32],
    /// Those alone that two threads or more touched, one of them by a write.
    pub shared: bool,
}

/// Whether two threads or more made these touches of an object, one of them by a write.
fn is_shared(touches: &[ObjectTouch]) -> bool
    ensures { result ≡ is_shared touches.now }
{
    match touches.first() {
        Some(first) => has_other(touches, first.thread) && has_write(touches),
        None => false,
    }
}

/// The set of these objects.
fn set_of(alloc: Global, objects: &[u32]) -> Result<BTreeSet<u32>, AllocError>
    ensures { IfOk result (λ set. (object : ℕ) → contains nat_cmp set object ≡ list_any (λ m. m == object) objects.now) }
{
    let mut set = BTreeSet::new(alloc);
    for object in objects {
        set.insert(*object)?;
    }
    Ok(set)
}

/// A choice, with the set of the objects that it names. Contracts see the choice.
#[derive(Drop)]
pub(crate) struct ChosenObjects<'a> {
    choice: Choice<'a>,
    named: BTreeSet<u32>,
}

impl<'a> Model for ChosenObjects<'a> {
    ghost use Rattle.std.specs.Prelude.{◌≡◌, ◌==◌, ℕ};
    ghost use Rattle.std.specs.List.{list_any};
    ghost use Rattle.std.specs.BTreeSet.{contains};
    ghost use Rattle.std.specs.Ordering.{nat_cmp};
    ghost use Rattle.replica.specs.Chosen.{ObjectsAsked, asked_of};

    ghost Value = { ObjectsAsked };

    ghost view = { λ c. asked_of c.choice };

    ghost invariant = { λ c. (object : ℕ) → contains nat_cmp c.named object ≡ list_any (λ m. m == object) c.choice.only.now };
}

impl<'a> ChosenObjects<'a> {
    /// The objects of a choice.
    pub(crate) fn of(alloc: Global, choice: Choice<'a>) -> Result<ChosenObjects<'a>, AllocError>
        ensures { IfOk result (λ chosen. chosen ≡ asked_of choice.entry) }
    {
        Ok(ChosenObjects {
            choice,
            named: set_of(alloc, choice.only)?,
        })
    }

    /// Whether no object is named, or this one is.
    pub(crate) fn is_named(&self, object: u32) -> bool
        ensures { result ≡ is_named self.now.only object }
    {
        self.choice.only.is_empty() || self.named.contains(&object)
    }

    /// Whether no object is named.
    pub(crate) fn is_unnamed(&self) -> bool
        ensures { result ≡ (length self.now.only == 0) }
    {
        self.choice.only.is_empty()
    }

    /// Whether an object is listed, of which these are the touches.
    pub(crate) fn is_chosen(&self, object: u32, touches: &[ObjectTouch]) -> bool
        ensures { result ≡ is_chosen self.now object touches.now }
    {
        self.is_named(object) && (!self.choice.shared || is_shared(touches))
    }
}
