//! The executable model of a round: the state machine over a work, one event after another, and the law of every list
//! of events.
//!
//! Once all workers have stopped, each word is the sum over all tiles, for every interleaving of the events. No command
//! depends on this crate.
#![tactic(auto)]

mod laws;
mod round;
mod statuses;

pub use laws::every_order;
pub use round::Round;
