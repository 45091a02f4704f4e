//! The end of steps at a pair without a derivative.

ghost use Rattle.std.specs.Prelude.{◌<◌};

use crate::tested_run::slope_faults::SlopeFault;

/// A pair of atoms without a derivative, by index from 0, and why.
#[derive(Clone, Copy)]
pub(crate) struct PairFault {
    pub low: usize,
    pub high: usize,
    pub fault: SlopeFault,
    pub ghost apart: { low < high },
    pub ghost few: { high < 65536 },
}

/// A run that stopped after `done` whole steps, since a pair had no derivative.
#[derive(Clone, Copy)]
pub(crate) struct Stop {
    pub done: u64,
    pub pair: PairFault,
}
