//! The energy of a frame's pairs, computed by accepted code.
//!
//! The verifier's verdict gives each pair an energy before any code runs. So the energy of a frame is a sum of
//! integers, to which pairs that don't interact contribute 0. Each energy fits 64 bits, so that the sum of fewer than
//! 2^32 energies fits 96.

ghost use Rattle.std.specs.Prelude.{◌≡◌, ◌<◌, ◌≤◌, ◌^◌, ◌*◌, ◌+ℤ◌, unsigned_abs, length, take};
ghost use Rattle.frame_sums.specs.Sums.{sum_over};

use crate::rows::Scratch;
use crate::safe_systems::SafeSystem;
use crate::sums_over_pairs::SumOverPairs;
use fixed::Fx;
use potential::LaneKernel;
use std::alloc::Allocator;

/// The rule for the energy: the accepted code of a system's energy, whose derivative moves the system's atoms.
#[derive(Drop)]
pub(crate) struct EnergySum<'a, A: Allocator + Copy> {
    pub kernel: &'a LaneKernel<A>,
}

fn plus(sum: i128, more: i128) -> i128
    requires sum { unsigned_abs sum ≤ 2 ^ 100 }
    requires more { unsigned_abs more ≤ 2 ^ 100 }
    ensures { result ≡ sum +ℤ more }
{
    sum + more
}

/// A value as a 128-bit integer.
fn wide(value: Fx) -> i128
    ensures value { result ≡ value }
    ensures bound { unsigned_abs result ≤ 2 ^ 63 }
{
    i128::from(value.raw())
}

/// The sum of the first `n` values.
fn sum_of_first(values: &[Fx], n: usize) -> i128
    requires few { n ≤ 128 }
    requires there { n ≤ length values.now }
    ensures value { result ≡ sum_over (λ v. v) (take n values.now) }
    ensures bound { unsigned_abs result ≤ 2 ^ 63 * n }
{
    let mut sum = 0;
    for l in 0..n {
        sum = plus(sum, wide(values[l]));
    }
    sum
}

impl<'a, A: Allocator + Copy> SumOverPairs<A, i128> for EnergySum<'a, A> {
    ghost use Rattle.std.specs.Prelude.{false};
    ghost use Rattle.frame_sums.specs.SafeEnergies.{IsEnergyCode, IsEnergyOfPairs};

    ghost is_for = { λ e s. IsEnergyCode s e.kernel.now };

    ghost is_sum = { λ e s pairs z. IsEnergyOfPairs s pairs z };

    ghost needs = { false };

    #[inline(always)]
    fn needs_forces() -> bool {
        false
    }

    /// If no pair interacts, no code runs.
    fn add_batch<B: Allocator>(
        &self,
        system: &SafeSystem<A>,
        scratch: &mut Scratch<B>,
        sum: &mut i128,
    ) {
        let Scratch {
            found,
            queries,
            slopes: energies,
            rows,
            ..
        } = scratch;
        if found.len() == 0 {
            return;
        }
        system.query_all(found, queries);
        self.kernel.values(&queries[..found.len()], rows, energies);
        *sum = plus(*sum, sum_of_first(energies, found.len()));
    }
}
