//! Output into memory.
ghost use Rattle.std.specs.Prelude.{◌≡◌, [], Some};
ghost use Rattle.fallible.specs.Out.{Collection};

use crate::output::{Out, OutFault};
use std::alloc::Allocator;
use std::marker::Model;

/// An output that keeps the accepted bytes in memory. A write fails only if the allocation for its bytes fails.
#[derive(Drop)]
pub struct Collected<A: Allocator> {
    bytes: Vec<u8, A>,
    failures: u64,
}

impl<A: Allocator> Model for Collected<A> {
    ghost Value = { Collection };

    ghost view = { λ c. record { bytes = c.bytes.items; failures = c.failures } };
}

impl<A: Allocator> Collected<A> {
    /// An empty output that allocates from `alloc`.
    pub fn new(alloc: A) -> Self
        ensures bytes { result.bytes ≡ [] }
        ensures failures { result.failures ≡ 0 }
    {
        Collected {
            bytes: Vec::new(alloc),
            failures: 0,
        }
    }

    /// The bytes accepted so far.
    pub fn bytes(&self) -> &[u8]
        ensures { result.now ≡ self.now.bytes }
    {
        self.bytes.as_slice()
    }

    /// The accepted bytes, in the memory that holds them.
    pub fn into_bytes(self) -> Vec<u8, A>
        ensures { result.items ≡ self.bytes }
    {
        let Collected { bytes, .. } = self;
        bytes
    }
}

impl<A: Allocator> Out for Collected<A> {
    ghost output = { λ c. record { taken = Some c.bytes; failed = c.failures } };

    /// Accepts all of the bytes, or none if the allocation fails.
    fn write(&mut self, bytes: &[u8]) -> Result<usize, OutFault> {
        match self.bytes.extend_from_slice(bytes) {
            Ok(()) => Ok(bytes.len()),
            Err(_) => {
                self.failures += 1;
                Err(OutFault)
            }
        }
    }

    fn failures(&self) -> u64 {
        self.failures
    }
}
