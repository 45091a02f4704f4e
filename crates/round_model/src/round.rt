//! A round that runs: the state machine over a work.

ghost use Rattle.std.specs.Prelude.{◌≡◌, ◌+◌, ◌*◌, ◌^◌, ◌<◌, ◌≤◌, length, map, slice_get, IfOk, OnErr};
ghost use Rattle.std.specs.Int.{w64, cast_signed};
ghost use Rattle.rounds.specs.Tiles.{tiles_of};
ghost use Rattle.rounds.specs.Interleaving.{on_claim, on_deposit, opening, step, word};

use crate::statuses::{WorkerStatus, status_from, task_of};
use rounds::{Event, Memory, Outcome, RoundFault, Work};
use std::alloc::Allocator;
use std::marker::Model;

/// A round of workers over a work. Contracts see the work's tiles, each a list of additions, and the state: who drew
/// each ticket, each worker's progress, and the sums.
#[derive(Drop)]
pub struct Round<'w, W: Work, A: Allocator + Copy> {
    work: &'w W,
    // the worker that drew each ticket
    drawn: Vec<u32, A>,
    // the progress of each worker
    statuses: Vec<WorkerStatus, A>,
    sums: Vec<i64, A>,
}

impl<'w, W: Work, A: Allocator + Copy> Model for Round<'w, W, A> {
    ghost use Rattle.std.specs.Prelude.{map, vec_capacity};
    ghost use Rattle.std.specs.Int.{w64, cast_unsigned};
    ghost use Rattle.rounds.specs.Tiles.{tiles_of};
    ghost use Rattle.round_model.specs.Statuses.{Progress, stages_of, IsSound};

    ghost Value = { Progress };

    ghost view = { λ r. record {
      tiles = tiles_of (W.plan r.work.now);
      state = record {
        drawn = r.drawn.items;
        stages = stages_of (W.plan r.work.now) r.statuses.items;
        sums = map (cast_unsigned w64) r.sums.items;
      };
    } };

    ghost invariant = { λ r. IsSound (W.atoms r.work.now) (W.plan r.work.now)
        r.drawn.items (vec_capacity r.drawn) r.statuses.items r.sums.items };
}

impl<'w, W: Work, A: Allocator + Copy> Round<'w, W, A> {
    /// The opening state of a round with this many workers over the work; each word is zero. All memory of the round is
    /// allocated here. `Memory` if an allocation fails.
    ///
    /// The caller ensures that the work has at most this many atoms, and that tiles and workers together are fewer than
    /// 2^64.
    pub fn new(alloc: A, work: &'w W, atoms: u32, workers: u32) -> Result<Self, Memory>
        requires atoms { W.atoms work.now ≤ atoms }
        requires tiles { length (W.plan work.now) + workers < 2 ^ 64 }
        ensures opens { IfOk result (λ r. r ≡ record {
          tiles = tiles_of (W.plan work.now);
          state = opening workers (3 * atoms);
        }) }
    {
        let tickets = work.tiles() as usize + workers as usize;
        let drawn = Vec::with_capacity(alloc, tickets)?;
        let statuses = vec![in alloc; WorkerStatus::Resting; workers as usize]?;
        let sums = vec![in alloc; 0i64; 3 * atoms as usize]?;
        Ok(Round {
            work,
            drawn,
            statuses,
            sums,
        })
    }

    /// Makes one event, without allocation.
    ///
    /// Errors, which leave the round unchanged: `NoSuchWorker` if no worker has the number; `Stopped` if the worker has
    /// stopped; `Busy` for a claim while additions of the worker's tile are left; `Idle` for a deposit while none is
    /// left.
    pub fn step(&mut self, event: Event) -> Result<Outcome, RoundFault>
        ensures tiles { self.new.tiles ≡ self.old.tiles }
        ensures event { (self.new.state, result) ≡ step self.old.tiles self.old.state event }
        ensures refused { OnErr result (self.new ≡ self.old) }
    {
        match event {
            Event::Claim(worker) => self.claim(worker),
            Event::Deposit(worker) => self.deposit(worker),
        }
    }

    /// The number of tickets drawn, which is word 0.
    pub fn tickets(&self) -> u64
        ensures { result ≡ word self.now.state 0 }
    {
        self.drawn.len() as u64
    }

    /// The words after the first, read as signed numbers: entry `3a + axis` is word `1 + 3a + axis`.
    pub fn sums(&self) -> &[i64]
        ensures { result.now ≡ map (cast_signed w64) self.now.state.sums }
    {
        self.sums.as_slice()
    }

    fn claim(&mut self, worker: u32) -> Result<Outcome, RoundFault>
        ensures tiles { self.new.tiles ≡ self.old.tiles }
        ensures event { (self.new.state, result)
            ≡ on_claim self.old.tiles self.old.state worker (slice_get self.old.state.stages worker) }
    {
        match task_of(&self.statuses, worker)? {
            Some(_) => Err(RoundFault::Busy),
            None => {
                let work = self.work;
                let ticket = self.drawn.len() as u64;
                self.drawn.push_reserved(worker);
                if ticket < work.tiles() {
                    self.statuses[worker as usize] = status_from(work, ticket, 0);
                    Ok(Outcome::Drew(ticket))
                } else {
                    self.statuses[worker as usize] = WorkerStatus::Stopped;
                    Ok(Outcome::Ended)
                }
            }
        }
    }

    fn deposit(&mut self, worker: u32) -> Result<Outcome, RoundFault>
        ensures tiles { self.new.tiles ≡ self.old.tiles }
        ensures event { (self.new.state, result)
            ≡ on_deposit self.old.tiles self.old.state worker (slice_get self.old.state.stages worker) }
    {
        match task_of(&self.statuses, worker)? {
            None => Err(RoundFault::Idle),
            Some(task) => {
                let work = self.work;
                let (entry, amount) = task.addition();
                let sum = self.sums[entry].cast_unsigned().wrapping_add(amount);
                self.sums[entry] = sum.cast_signed();
                self.statuses[worker as usize] = task.after(work);
                Ok(Outcome::Added(1 + entry as u64))
            }
        }
    }
}
