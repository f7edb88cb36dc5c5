//! A replica of a run's log, to which pieces are delivered.

ghost use Rattle.std.specs.Prelude.{◌≡◌, ◌≢◌, ◌↔◌, ◌⊎◌, ℕ, List, [], ◌∷◌, ◌++◌, OnOk, Err};
ghost use Rattle.log_pieces.specs.Piece.{PieceValue};

use crate::fault::ReplicaFault;
use crate::log::Log;
use log_pieces::Piece;
use std::alloc::Global;
use wasm_types::{NoMemory, RunKey};

/// Gathers the pieces of one run. The order of the pieces, repeats, overlaps and cuts make no difference to its log.
#[derive(Drop)]
pub struct Replica {
    pub(crate) log: Log,
}

impl Replica {
    ghost use Rattle.replica.specs.Log.{log_of, key_of};
    ghost use Rattle.replica.specs.LogOf.{IsEmpty, IsLogOf, Among, IsJoinedWith, first_items};
    ghost use Rattle.replica.specs.Merged.{IsMerged, IsMergedInPart};
    ghost use Rattle.replica.specs.declared.fault.ReplicaFault.TheVariants as faults;

    /// A replica of that run, to which no piece was delivered.
    pub fn new(alloc: Global, key: RunKey) -> Replica
        ensures key { key_of (log_of result) ≡ key }
        ensures empty { IsEmpty (log_of result) }
        ensures log { IsLogOf (Among []) (log_of result) }
    {
        Replica {
            log: Log::new(alloc, key),
        }
    }

    /// The log of the pieces that were delivered.
    pub fn log(&self) -> &Log
        ensures { result.now ≡ log_of self.now }
    {
        &self.log
    }

    /// Joins a piece's items to the log. After want of memory the first of them are joined, and delivering the piece
    /// again completes it.
    pub fn deliver(&mut self, alloc: Global, piece: &Piece) -> Result<(), ReplicaFault>
        // It is refused exactly where it is of another run, and then nothing changes.
        ensures other_run { (result ≡ Err faults.OtherRun) ↔ (piece.now.key ≢ key_of (log_of self.old)) }
        ensures same_run { (result ≡ Err faults.OtherRun) ⊎ (piece.now.key ≡ key_of (log_of self.old)) }
        ensures unchanged { result ≡ Err faults.OtherRun → self.new ≡ self.old }
        // The log is the old one joined with the piece, or for want of memory with the first of its items.
        ensures joined { OnOk result (IsJoinedWith (log_of self.old) piece.now (log_of self.new)) }
        ensures left { result ≡ Err faults.NoMemory → ((count : ℕ) × IsJoinedWith (log_of self.old) (first_items count piece.now) (log_of self.new)) }
        // So it is the log of the set of the pieces that were delivered.
        ensures log { OnOk result ((ps : List PieceValue) → IsLogOf (Among ps) (log_of self.old) → IsLogOf (Among (piece.now ∷ ps)) (log_of self.new)) }
    {
        if *piece.key() != self.log.key {
            return Err(ReplicaFault::OtherRun);
        }
        match self.log.join_piece(alloc, piece) {
            Ok(()) => Ok(()),
            Err(NoMemory) => Err(ReplicaFault::NoMemory),
        }
    }

    /// Joins another log of the run: its entries by thread and place, then its ends. After want of memory the first of
    /// its entries are joined, and merging the log again completes it.
    pub fn merge(&mut self, alloc: Global, other: &Log) -> Result<(), ReplicaFault>
        // It is refused exactly where it is of another run, and then nothing changes.
        ensures other_run { (result ≡ Err faults.OtherRun) ↔ (key_of other.now ≢ key_of (log_of self.old)) }
        ensures unchanged { result ≡ Err faults.OtherRun → self.new ≡ self.old }
        // The log is the old one joined with the other, or for want of memory with the first of its entries.
        ensures joined { OnOk result (IsMerged (log_of self.old) other.now (log_of self.new)) }
        ensures left { result ≡ Err faults.NoMemory → ((thread count : ℕ) × IsMergedInPart (log_of self.old) other.now thread count (log_of self.new)) }
        // So the log of two sets of pieces is that of all of them.
        ensures log { OnOk result ((ps qs : List PieceValue) → IsLogOf (Among ps) (log_of self.old) → IsLogOf (Among qs) other.now → IsLogOf (Among (ps ++ qs)) (log_of self.new)) }
    {
        if other.key != self.log.key {
            return Err(ReplicaFault::OtherRun);
        }
        match self.log.join_log(alloc, other) {
            Ok(()) => Ok(()),
            Err(NoMemory) => Err(ReplicaFault::NoMemory),
        }
    }
}
