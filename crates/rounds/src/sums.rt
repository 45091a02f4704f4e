//! The result of a pool.

ghost use Rattle.std.specs.Prelude.{◌≡◌};

use std::alloc::Allocator;
use std::convert::AsSlice;
use std::marker::Model;

/// The forces on all atoms, in units of 2^-bits kJ/mol/nm for a job with that many fraction bits: entry `3a + axis` is
/// the sum of that component on atom `a`, from 0. Contracts see the list of the entries.
#[derive(Drop)]
pub struct Forces<A: Allocator + Copy> {
    pub(crate) sums: Vec<i64, A>,
}

impl<A: Allocator + Copy> Model for Forces<A> {
    ghost use Rattle.std.specs.Prelude.{List, ℤ};

    ghost Value = { List ℤ };

    ghost view = { λ f. f.sums.items };
}

impl<A: Allocator + Copy> Forces<A> {
    /// All entries in order.
    pub fn as_slice(&self) -> &[i64]
        ensures { result.now ≡ self.now }
    {
        self.sums.as_slice()
    }
}

impl<A: Allocator + Copy> AsSlice<i64> for Forces<A> {
    ghost items = { λ f. f };

    fn as_slice(&self) -> &[i64] {
        let sums = &self.sums;
        sums.as_slice()
    }
}
