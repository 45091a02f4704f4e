//! The atoms of a state that can be run under a job.

ghost use Rattle.std.specs.Prelude.{◌≡◌, ◌<◌, ◌≤◌, length, map, IfOk};
ghost use Rattle.std.specs.List.{All};
ghost use Rattle.fallible.specs.Failures.{Gives};
ghost use Rattle.job.specs.Views.{job_value, type_value};
ghost use Rattle.state.specs.StateViews.{atom_view, state_view};
ghost use Rattle.integrator.specs.Starts.{atom_types, mass_of, types_of};
ghost use Rattle.integrator.specs.StartViews.{system_refusal};

use crate::atoms::TypedAtoms;
use crate::faults::SystemFault;
use fallible::Failure;
use job::{AtomType, Job};
use state::{Atom, State};
use std::alloc::{AllocError, Allocator};

/// The index of each atom's type. `UnknownType`: the lowest atom whose name is no type's, counted from 1.
fn atom_types<A: Allocator + Copy>(
    alloc: A,
    job: &Job<A>,
    atoms: &[Atom],
) -> Result<Vec<u32, A>, Failure<SystemFault>>
    ensures value { Gives (λ v. v.items) system_refusal result
        (atom_types (map type_value job.now.types.items) 1 (map atom_view atoms.now)) }
    ensures known { IfOk result (λ v. All (λ t. t < length job.now.types.items) v.items) }
    ensures count { IfOk result (λ v. length v.items ≡ length atoms.now) }
{
    let mut types = Vec::new(alloc);
    for (k, atom) in atoms.iter().enumerate() {
        match job.type_of(atom.name.as_bytes()) {
            Some(number) => types.push(number)?,
            None => return Err(Failure::Refused(SystemFault::UnknownType { atom: k as u64 + 1 })),
        }
    }
    Ok(types)
}

/// The mass of each atom in 10^-5 u, from the index of its type.
fn atom_masses<A: Allocator + Copy>(
    alloc: A,
    kinds: &[AtomType<A>],
    types: &[u32],
) -> Result<Vec<u32, A>, AllocError>
    requires { All (λ t. t < length kinds.now) types.now }
    ensures value { IfOk result (λ v. v.items ≡ map (mass_of (map type_value kinds.now)) types.now) }
    ensures some { IfOk result (λ v. All (λ m. 0 < m) v.items) }
    ensures most { IfOk result (λ v. All (λ m. m ≤ 100000000) v.items) }
{
    let mut masses = Vec::new(alloc);
    for number in types {
        masses.push(kinds[*number as usize].mass)?;
    }
    Ok(masses)
}

/// The types and masses of a state's atoms under this job.
///
/// The errors come in this order: `BitsDiffer` if the job and the state have different numbers of fraction bits;
/// `UnknownType` for the lowest atom whose name is no type's, counted from 1; `CutoffTooLong` if some side of the box
/// is shorter than two cutoffs. `Memory`: memory ran out.
pub fn typed_atoms<A: Allocator + Copy>(
    alloc: A,
    job: &Job<A>,
    state: &State<A>,
) -> Result<TypedAtoms<A>, Failure<SystemFault>>
    ensures value { Gives (λ t. t.types.items) system_refusal result (types_of (job_value job.now) (state_view state.now)) }
    ensures known { IfOk result (λ t. All (λ k. k < length job.now.types.items) t.types.items) }
    ensures masses { IfOk result (λ t. t.masses.items ≡ map (mass_of (map type_value job.now.types.items)) t.types.items) }
    ensures count { IfOk result (λ t. length t.types.items ≡ length state.now.atoms.items) }
{
    if job.frac.bits() != state.frac.bits() {
        return Err(Failure::Refused(SystemFault::BitsDiffer));
    }
    let types = atom_types(alloc, job, &state.atoms)?;
    if !state.ring.has_room(job.frac, job.cutoff) {
        return Err(Failure::Refused(SystemFault::CutoffTooLong));
    }
    let masses = atom_masses(alloc, &job.types, &types)?;
    Ok(TypedAtoms { types, masses })
}
