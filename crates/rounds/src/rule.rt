//! The invariant of the table (its rule): the view of each seat, the property that holds between any two steps, and the
//! effect of each step.
//!
//! A view is a list of workers, each with its tickets and deposits. It exists only in proofs and takes no memory at run
//! time. "Each once" is stated by counts over all views, from which proofs conclude that a sum over all tickets is a
//! sum over the numbers below word 0.
use crate::work::Work;
use atomic_table::{Join, Play, Seat, Shared, Split, TableRule};
use std::alloc::Global;
use std::collections::LinkedList;
use std::marker::PhantomData;
use std::snapshot::Snapshot;

/// The history of one worker: its tickets and additions so far, in order. It exists only in proofs: no value of it is
/// made.
pub struct Worker {
    pub number: u64,
    /// The tickets that the worker drew.
    pub tickets: LinkedList<u64, Global>,
    /// The worker's additions: the entry of the sums, and the amount modulo 2^64.
    pub deposits: LinkedList<(u64, u64), Global>,
}

/// The workers that a seat represents.
pub type View = LinkedList<Worker, Global>;

/// The parameters of a table: the work as it was when the table was made, and the numbers of atoms and workers.
pub struct Setting<W> {
    pub work: Snapshot<W>,
    pub atoms: u64,
    pub workers: u64,
}

impl<W> Drop for Setting<W> {
    fn drop(self) {
        let Self {
            work: _,
            atoms: _,
            workers: _,
        } = self;
    }
}

/// The rule of the table. Between any two steps:
///
/// - the tickets in all views are the numbers below word 0, each once;
/// - each worker's tickets ascend, and at most the last is past the last tile;
/// - each worker's deposits are the additions of its tickets' tiles in order, complete except for the last one's, of
///   which they are a prefix;
/// - each other word is the sum modulo 2^64 of the deposits in all views;
/// - the numbers of the workers in all views are those below the number of workers, each once.
///
/// So a sum that was kept aside is no deposit, and no deposit is from a tile that wasn't drawn. Words and views also
/// represent a state that the machine of a round reaches by some list of events, as `steps_are_events` states step by
/// step.
pub struct PoolRule<W> {
    work: PhantomData<W>,
}

impl<W: Work> TableRule<(), View, Setting<W>> for PoolRule<W> {
    ghost use Rattle.rounds.specs.Tiles.{tiles_of};
    ghost use Rattle.rounds.specs.Rule.{fresh_workers};
    ghost use Rattle.rounds.specs.Events.{IsRunning};

    ghost holds = { λ key s. IsRunning (tiles_of (W.plan key.work.value)) key.atoms key.workers s.words s.views };

    ghost first = { λ key. fresh_workers key.workers };
}

/// The table as all workers see it.
pub type PoolTable<W> = Shared<(), View, Setting<W>, PoolRule<W>>;

/// A seat at the table: the right to make steps on it for the workers of its view.
pub type PoolSeat = Seat<(), View>;

/// The step that draws a ticket.
pub struct Claim;

impl Play<(), View> for Claim {
    ghost use Rattle.rounds.specs.Rule.{draws};

    ghost then = { draws };
}

/// The step that makes an addition.
pub struct Deposit;

impl Play<(), View> for Deposit {
    ghost use Rattle.rounds.specs.Rule.{adds};

    ghost then = { adds };
}

/// The first worker of a view, which is split off into a seat of its own and joined again.
pub struct FirstWorker;

impl Split<View> for FirstWorker {
    ghost use Rattle.std.specs.Prelude.{take, drop};

    ghost left = { λ v. drop 1 v };

    ghost right = { λ v. take 1 v };
}

impl Join<View> for FirstWorker {
    ghost use Rattle.std.specs.Prelude.{◌++◌, []};

    ghost both = { λ v w. v ++ w };

    ghost spent = { [] };
}
