//! A state's frames, and the state after some steps.

ghost use Rattle.std.specs.Prelude.{◌≡◌, length, map, true, IfOk, IfSome};
ghost use Rattle.fixed.specs.Arithmetic.{in_range};
ghost use Rattle.state.specs.StateViews.{atom_view, state_view};
ghost use Rattle.integrator.specs.Frames.{frames};
ghost use Rattle.integrator.specs.States.{counter_after, counter_at, frames_of, moved_state, moved_atom, moved_atoms};

use crate::direction::Direction;
use ring_box::Place3;
use state::{Atom, State};
use std::alloc::{AllocError, Allocator};

/// A state's counter after n steps, if it fits an i64. With n = 0 it always fits.
pub fn counter_after<A: Allocator>(
    direction: Direction,
    state: &State<A>,
    steps: u64,
) -> Option<i64>
    ensures value { result ≡ counter_after direction state.now.step steps }
    ensures fits { IfSome result (λ _. in_range (counter_at direction state.now.step steps) ≡ true) }
{
    let step = state.step;
    let after = match direction {
        Direction::Forward => i128::from(step) + i128::from(steps),
        Direction::Back => i128::from(step) - i128::from(steps),
    };
    i64::try_from(after).ok()
}

/// Two consecutive frames of grid coordinates below 2^32 along each axis.
#[derive(Drop)]
pub struct Stepped<A: Allocator> {
    /// The coordinates of each atom one step earlier.
    pub previous: Vec<Place3, A>,
    /// The coordinates of each atom.
    pub current: Vec<Place3, A>,
}

/// The two frames of a state. `AllocError`: memory ran out.
pub fn frames_of<A: Allocator + Copy>(alloc: A, state: &State<A>) -> Result<Stepped<A>, AllocError>
    ensures value { IfOk result (λ t. frames t.previous.items t.current.items ≡ frames_of (state_view state.now)) }
    ensures previous { IfOk result (λ t. length t.previous.items ≡ length state.now.atoms.items) }
    ensures current { IfOk result (λ t. length t.current.items ≡ length state.now.atoms.items) }
{
    let mut previous = Vec::new(alloc);
    let mut current = Vec::new(alloc);
    let atoms: &[Atom] = &state.atoms;
    for atom in atoms {
        previous.push(atom.previous)?;
        current.push(atom.current)?;
    }
    Ok(Stepped { previous, current })
}

/// The atom with these coordinates in the previous and the current frame.
fn moved_atom(mut atom: Atom, previous: Place3, current: Place3) -> Atom
    ensures { atom_view result ≡ moved_atom (atom_view atom) previous current }
{
    atom.previous = previous;
    atom.current = current;
    atom
}

/// Sets the atoms' coordinates to those in these frames.
fn move_atoms(atoms: &mut [Atom], previous: &[Place3], current: &[Place3])
    requires previous { length previous.now ≡ length atoms.old }
    requires current { length current.now ≡ length atoms.old }
    ensures { map atom_view atoms.new ≡ moved_atoms (map atom_view atoms.old) (frames previous.now current.now) }
{
    for k in 0..atoms.len() {
        atoms[k] = moved_atom(atoms[k], previous[k], current[k]);
    }
}

/// Sets a state's coordinates to those in these frames, and its counter to this one.
pub fn advance<A: Allocator>(state: &mut State<A>, stepped: &Stepped<A>, counter: i64)
    requires previous { length stepped.now.previous.items ≡ length state.old.atoms.items }
    requires current { length stepped.now.current.items ≡ length state.old.atoms.items }
    ensures value { state_view state.new
        ≡ moved_state (state_view state.old) (frames stepped.now.previous.items stepped.now.current.items) counter }
    ensures ring { state.new.ring ≡ state.old.ring }
    ensures atoms { length state.new.atoms.items ≡ length state.old.atoms.items }
{
    move_atoms(&mut state.atoms, &stepped.previous, &stepped.current);
    state.step = counter;
}
