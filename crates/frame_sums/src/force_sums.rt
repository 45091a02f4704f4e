//! The forces on the atoms of a frame: the rule that adds the force of each pair, and the sums as a list.
//!
//! Sums of forces wrap in 64 bits, so a rule needs no room for them. The sum over all pairs of a frame is still the
//! exact force on each atom, because the verifier's bound on the slope is small enough for the number of atoms.

ghost use Rattle.std.specs.Prelude.{◌≡◌, ◌+◌, ◌*◌, ◌<◌, length, IfOk};
ghost use Rattle.frame_sums.specs.Rounds.{forces_from, forces_in};

use crate::rows::Scratch;
use crate::safe_systems::SafeSystem;
use crate::sums_over_pairs::SumOverPairs;
use ring_box::Vector;
use rounds::Forces;
use std::alloc::{AllocError, Allocator};

/// The rule for the forces on all atoms.
#[derive(Drop)]
pub(crate) struct ForceSum;

impl<A: Allocator + Copy, C: Allocator + Copy> SumOverPairs<A, Forces<C>> for ForceSum {
    ghost use Rattle.std.specs.Prelude.{true};
    ghost use Rattle.frame_sums.specs.ForceSums.{AreForcesOfPairs};

    ghost is_for = { λ f s. Unit {0} };

    ghost is_sum = { λ f s pairs sums. AreForcesOfPairs s pairs sums };

    ghost needs = { true };

    #[inline(always)]
    fn needs_forces() -> bool {
        true
    }

    #[inline(always)]
    fn add_batch<B: Allocator>(
        &self,
        _system: &SafeSystem<A>,
        scratch: &mut Scratch<B>,
        sum: &mut Forces<C>,
    ) {
        for l in 0..scratch.found.len() {
            sum.add(&scratch.add_at(l));
        }
    }
}

/// The force on an atom, from sums with three components per atom.
fn force_on(sums: &[i64], atom: usize) -> Vector<i64>
    requires { 3 * atom + 2 < length sums.now }
    ensures { result ≡ forces_in sums.now atom }
{
    Vector {
        x: sums[3 * atom],
        y: sums[3 * atom + 1],
        z: sums[3 * atom + 2],
    }
}

/// The forces on `atoms` atoms in 2^-bits kJ/mol/nm, from sums with three components per atom. `AllocError`: memory ran
/// out.
pub fn forces_on<A: Allocator>(
    alloc: A,
    sums: &[i64],
    atoms: usize,
) -> Result<Vec<Vector<i64>, A>, AllocError>
    requires { length sums.now ≡ 3 * atoms }
    ensures { IfOk result (λ forces. forces.items ≡ forces_from sums.now atoms) }
{
    let mut forces = Vec::new(alloc);
    for atom in 0..atoms {
        forces.push(force_on(sums, atom))?;
    }
    Ok(forces)
}
