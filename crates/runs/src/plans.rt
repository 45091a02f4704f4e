//! Plans of runs.

ghost use Rattle.std.specs.Prelude.{◌≡◌, ◌<◌, ◌≤◌};
ghost use Rattle.runs.specs.Plans.{end_plan, last_text, steps_made, steps_to, visits_plan};

use integrator::{Direction, Workers};
use std::marker::Model;

/// How many steps a run has, in which direction and with how many workers, and which of its states are shown: those
/// after `first`, `first` + `every`, `first` + 2 `every`, .. steps. The texts of the states are numbered from 0.
#[derive(Drop)]
pub struct Plan {
    direction: Direction,
    steps: u64,
    first: u64,
    every: u64,
    workers: Workers,
}

impl Model for Plan {
    ghost use Rattle.std.specs.Prelude.{◌<◌, ◌≤◌, ◌^◌};
    ghost use Rattle.runs.specs.Plans.{PlanView};

    ghost Value = { PlanView };

    ghost view = { λ p. record { direction = p.direction; steps = p.steps; first = p.first; every = p.every } };

    ghost invariant = { λ p. (p.first ≤ p.steps) × (p.steps < 2 ^ 64) × (0 < p.every) };
}

impl Plan {
    /// The plan that shows only the state after all steps.
    pub fn of_end(direction: Direction, steps: u64, workers: Workers) -> Plan
        ensures { result ≡ end_plan direction steps }
    {
        Plan {
            direction,
            steps,
            first: steps,
            every: 1,
            workers,
        }
    }

    /// The plan that shows the states after 0, k, 2k, .. steps, for k = `every`, which is at least 1.
    pub fn of_visits(direction: Direction, steps: u64, every: u64, workers: Workers) -> Plan
        requires { 0 < every }
        ensures { result ≡ visits_plan direction steps every }
    {
        Plan {
            direction,
            steps,
            first: 0,
            every,
            workers,
        }
    }

    /// The direction of the run.
    pub(crate) fn direction(&self) -> Direction
        ensures { result ≡ self.now.direction }
    {
        self.direction
    }

    /// The number of steps, including those after the last text, which are not made.
    pub(crate) fn steps(&self) -> u64
        ensures { result ≡ self.now.steps }
    {
        self.steps
    }

    /// The number of workers.
    pub(crate) fn workers(&self) -> Workers {
        self.workers
    }

    /// The number of the last text.
    pub(crate) fn last_text(&self) -> u64
        ensures value { result ≡ last_text self.now }
        ensures within { steps_made self.now ≤ self.now.steps }
    {
        (self.steps - self.first) / self.every
    }

    /// The number of steps before the text with this number.
    pub(crate) fn steps_to(&self, number: u64) -> u64
        requires { number ≤ last_text self.now }
        ensures value { result ≡ steps_to self.now number }
        ensures within { result ≤ self.now.steps }
    {
        self.first + number * self.every
    }

    /// The number of steps that are made: those up to the last text.
    pub fn made(&self) -> u64
        ensures value { result ≡ steps_made self.now }
        ensures within { result ≤ self.now.steps }
    {
        self.steps_to(self.last_text())
    }
}
