//! The state that starts at a frame of a GRO file.

ghost use Rattle.std.specs.Prelude.{◌≡◌, map, IfOk};
ghost use Rattle.fallible.specs.Failures.{Gives};
ghost use Rattle.gro.specs.Frames as gro;
ghost use Rattle.state.specs.Starts.{current_place, previous_place, start_of_frame, started_atom};
ghost use Rattle.state.specs.StateViews.{atom_view, state_view};

use crate::states::{Atom, State};
use crate::velocities::place_before;
use fallible::Failure;
use fixed::Frac;
use gro::{GroAtom, GroFrame};
use job::{Job, TimeStep};
use ring_box::{BoxFault, Place3, RingBox, place_of_pm};
use std::alloc::{AllocError, Allocator};

impl<A: Allocator + Copy> State<A> {
    ghost use Rattle.fallible.specs.Failures.{Gives};
    ghost use Rattle.gro.specs.Frames.{frame_view};
    ghost use Rattle.state.specs.StateViews.{state_view};
    ghost use Rattle.state.specs.Starts.{BeginsAt, start_of_frame};

    /// The state that starts at a frame. Its step counter is 0, its fraction bits are the job's, and title, residue
    /// numbers, names and sides are the frame's. Each current grid coordinate is the one nearest to its position. Each
    /// previous one is the current one minus the displacement in one time step of the job, rounded to grid units.
    ///
    /// Errors, before any allocation: `NoBox` if all three sides of the frame are 0, else `SideRange` if a side is
    /// below 1 or above 16,000,000. `Memory` if an allocation fails.
    pub fn start<J: Allocator, F: Allocator>(
        alloc: A,
        job: &Job<J>,
        frame: &GroFrame<F>,
    ) -> Result<State<A>, Failure<BoxFault>>
        // The result is the state, or the fault of the sides.
        ensures exact { Gives state_view (λ f. f) result (start_of_frame job.now.frac job.now.time_step (frame_view frame.now)) }
        // Each grid coordinate is nearest to the frame's position, or to where the velocity puts the atom one time step
        // earlier.
        ensures begins { IfOk result (λ s. BeginsAt job.now.frac job.now.time_step (frame_view frame.now) (state_view s)) }
    {
        started(alloc, job.frac, job.time_step, frame)
    }
}

// The state that starts at a frame, with these fraction bits and this time step.
fn started<A: Allocator + Copy, F: Allocator>(
    alloc: A,
    frac: Frac,
    time_step: TimeStep,
    frame: &GroFrame<F>,
) -> Result<State<A>, Failure<BoxFault>>
    ensures { Gives state_view (λ f. f) result (start_of_frame frac time_step (gro.frame_view frame.now)) }
{
    let ring = match RingBox::new(frame.sides) {
        Ok(ring) => ring,
        Err(fault) => return Err(Failure::Refused(fault)),
    };
    let title = Vec::from_slice(alloc, &frame.title)?;
    let atoms = started_atoms(alloc, time_step, &ring, &frame.atoms)?;
    Ok(State {
        title,
        step: 0,
        frac,
        ring,
        atoms,
    })
}

// The atoms as atoms of the state.
fn started_atoms<A: Allocator>(
    alloc: A,
    time_step: TimeStep,
    ring: &RingBox,
    atoms: &[GroAtom],
) -> Result<Vec<Atom, A>, AllocError>
    ensures { IfOk result (λ v. map atom_view v.items ≡ map (started_atom time_step ring.now) (map gro.atom_view atoms.now)) }
{
    let mut started = Vec::new(alloc);
    for atom in atoms {
        started.push(started_atom(time_step, ring, atom))?;
    }
    Ok(started)
}

// The atom as an atom of the state.
fn started_atom(time_step: TimeStep, ring: &RingBox, atom: &GroAtom) -> Atom
    ensures { atom_view result ≡ started_atom time_step ring.now (gro.atom_view atom.now) }
{
    let current = current_place(ring, &atom.at);
    let previous = previous_place(time_step, ring, current, &atom.velocity);
    Atom {
        residue_number: atom.number,
        residue: atom.residue,
        name: atom.name,
        previous,
        current,
    }
}

// The grid coordinates nearest to a position in picometres.
fn current_place(ring: &RingBox, at: &[i64; 3]) -> Place3
    ensures { result ≡ current_place ring.now at.now }
{
    Place3 {
        x: place_of_pm(at[0], ring.x),
        y: place_of_pm(at[1], ring.y),
        z: place_of_pm(at[2], ring.z),
    }
}

// The grid coordinates one time step before `current`.
fn previous_place(
    time_step: TimeStep,
    ring: &RingBox,
    current: Place3,
    velocity: &[i64; 3],
) -> Place3
    ensures { result ≡ previous_place time_step ring.now current velocity.now }
{
    Place3 {
        x: place_before(current.x, velocity[0], time_step, ring.x),
        y: place_before(current.y, velocity[1], time_step, ring.y),
        z: place_before(current.z, velocity[2], time_step, ring.z),
    }
}
