//! Rounds of force summation: workers draw tiles of pairs of atoms, and add the pairs' forces into one table of shared
//! words.
//!
//! One word counts the tickets, and one word sums each component of each atom. A round is defined as a state machine of
//! single atomic events: a claim draws a ticket, and a deposit adds one component of a force. Each step of the pool's
//! threads is one event, a single `fetch_add`. The words hold the same sums for every interleaving of the workers'
//! steps.
#![tactic(auto)]

mod alone;
mod batches;
mod driving;
mod events;
mod faults;
mod laws;
mod pool;
mod rule;
mod steps;
mod sums;
mod work;

pub use batches::{PairAdds, next_from_pairs};
pub use driving::{Gate, drive};
pub use events::{Event, Outcome};
pub use faults::{Memory, RoundFault};
pub use laws::{exact_totals, steps_are_events};
pub use pool::forces;
pub use rule::{Claim, Deposit, FirstWorker, PoolRule, PoolSeat, PoolTable, Setting, View, Worker};
pub use sums::Forces;
pub use work::{PairAdd, RowWork, Work};
