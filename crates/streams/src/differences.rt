//! Where two states differ.

ghost use Rattle.std.specs.Prelude.{◌≡◌, ◌≤◌, length, map, IfNone, IfSome};
ghost use Rattle.state.specs.StateViews.{atom_view, state_view};
ghost use Rattle.streams.specs.Replays.{DifferIn, DifferOn, IsFirstAtom, IsVerdict};

use ring_box::{Axis, Place3};
use state::{Atom, State};
use std::alloc::Allocator;

/// Where a state first differs from another with the same counter and number of fraction bits, in the order of their
/// texts.
#[derive(Clone, Copy)]
pub enum Difference {
    /// In the title.
    Title,
    /// In the number of atoms.
    Atoms,
    /// In the sides of the box.
    Sides,
    /// In a part of the atom with this number, from 1.
    Atom { number: u64, part: AtomPart },
}

/// A part of an atom's line.
#[derive(Clone, Copy)]
pub enum AtomPart {
    /// The number and name of its residue, or its own name.
    Name,
    /// A coordinate of the previous frame.
    Previous(Axis),
    /// A coordinate of the current frame.
    Current(Axis),
}

/// Where the state that a run leads to first differs from the stored state. `None`: they are the same.
pub(crate) fn first_difference<A: Allocator>(
    run: &State<A>,
    stored: &State<A>,
) -> Option<Difference>
    requires step { run.now.step ≡ stored.now.step }
    requires frac { run.now.frac ≡ stored.now.frac }
    ensures { IsVerdict (state_view run.now) (state_view stored.now) result }
{
    if run.title.as_slice() != stored.title.as_slice() {
        return Some(Difference::Title);
    }
    if run.atoms.len() != stored.atoms.len() {
        return Some(Difference::Atoms);
    }
    if run.ring != stored.ring {
        return Some(Difference::Sides);
    }
    let (number, part) = first_atom(run.atoms.as_slice(), stored.atoms.as_slice())?;
    Some(Difference::Atom { number, part })
}

/// The number, from 1, of the first atom that differs, and where. `None`: all are the same.
fn first_atom(run: &[Atom], stored: &[Atom]) -> Option<(u64, AtomPart)>
    requires alike { length run.now ≡ length stored.now }
    requires few { length run.now ≤ 65536 }
    ensures same { IfNone result (map atom_view run.now ≡ map atom_view stored.now) }
    ensures differ { IfSome result (IsFirstAtom (map atom_view run.now) (map atom_view stored.now)) }
{
    for at in 0..run.len() {
        if let Some(part) = first_part(&run[at], &stored[at]) {
            return Some((at as u64 + 1, part));
        }
    }
    None
}

/// The first part of its line in which an atom differs. `None`: they are the same.
fn first_part(run: &Atom, stored: &Atom) -> Option<AtomPart>
    ensures same { IfNone result (atom_view run.now ≡ atom_view stored.now) }
    ensures differ { IfSome result (DifferIn (atom_view run.now) (atom_view stored.now)) }
{
    if run.residue_number != stored.residue_number
        || run.residue != stored.residue
        || run.name != stored.name
    {
        return Some(AtomPart::Name);
    }
    if let Some(axis) = first_axis(run.previous, stored.previous) {
        return Some(AtomPart::Previous(axis));
    }
    first_axis(run.current, stored.current).map(|axis| AtomPart::Current(axis))
}

/// The first axis on which two places differ. `None`: they are the same.
fn first_axis(run: Place3, stored: Place3) -> Option<Axis>
    ensures same { IfNone result (run ≡ stored) }
    ensures differ { IfSome result (DifferOn run stored) }
{
    if run.x != stored.x {
        Some(Axis::X)
    } else if run.y != stored.y {
        Some(Axis::Y)
    } else if run.z != stored.z {
        Some(Axis::Z)
    } else {
        None
    }
}
