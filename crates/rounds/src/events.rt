//! Events of a round, and their outcomes.

/// One atomic event of a worker; workers are numbered from 0.
#[derive(Clone, Copy)]
pub enum Event {
    /// The worker draws the next ticket.
    Claim(u32),
    /// The worker makes the next addition of its tile.
    Deposit(u32),
}

/// The outcome of an accepted event.
#[derive(Clone, Copy, PartialEq, Eq)]
pub enum Outcome {
    /// The claim drew this tile.
    Drew(u64),
    /// The claim drew a ticket past the last tile, and the worker has stopped.
    Ended,
    /// The deposit was added to this word. The word of component `axis` of atom `a` is `1 + 3a + axis`.
    Added(u64),
}
