//! The sums on one thread: no table, no tickets and no atomic additions.
ghost use Rattle.std.specs.Prelude.{◌*◌, ◌/◌, [], length, Some, IfOk};
ghost use Rattle.rounds.specs.Tiles.{additions_of, IsPairOf};
ghost use Rattle.rounds.specs.Totals.{AreSums, GoesOn};

use crate::faults::Memory;
use crate::sums::Forces;
use crate::work::PairAdd;
use std::alloc::Allocator;

// Adds the six components of a pair's forces to the sums.
#[inline(always)]
fn add_pair(sums: &mut [i64], add: &PairAdd)
    requires { IsPairOf (length sums.old / 3) add.now }
    ensures { GoesOn sums.old (additions_of (Some add.now)) sums.new }
{
    for part in 0..PairAdd::PARTS {
        let (entry, amount) = add.addition(part);
        let sum = sums[entry].cast_unsigned().wrapping_add(amount);
        sums[entry] = sum.cast_signed();
    }
}

impl<A: Allocator + Copy> Forces<A> {
    /// The forces on this many atoms if no pair interacts. `Memory` if an allocation fails.
    pub fn none(alloc: A, atoms: u32) -> Result<Forces<A>, Memory>
        ensures { IfOk result (AreSums [] (3 * atoms)) }
    {
        let sums = vec![in alloc; 0i64; 3 * atoms as usize]?;
        Ok(Forces { sums })
    }

    /// Adds the force of a pair, on the caller's thread only.
    #[inline(always)]
    pub fn add(&mut self, add: &PairAdd)
        requires { IsPairOf (length self.old / 3) add.now }
        ensures { GoesOn self.old (additions_of (Some add.now)) self.new }
    {
        add_pair(self.sums.as_mut_slice(), add);
    }
}
