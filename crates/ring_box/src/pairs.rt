//! Pairs of atoms by their indices.

/// Two atoms, the lower first.
#[derive(Clone, Copy, PartialEq, Eq, Debug)]
pub struct AtomPair {
    pub low: u32,
    pub high: u32,
}
