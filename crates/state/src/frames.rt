//! The GRO frame of a state's current coordinates.

ghost use Rattle.std.specs.Prelude.{◌≡◌, map, pos, IfOk};
ghost use Rattle.std.specs.List.{AllByRecursion};
ghost use Rattle.gro.specs.Frames as gro;
ghost use Rattle.line_text.specs.Parts.{AreThree};
ghost use Rattle.state.specs.StateFrames.{IsAtomAtRest, IsInBox, IsSide, framed_atom, position_of};
ghost use Rattle.ring_box.specs.Places.{pm_of_place};
ghost use Rattle.state.specs.StateViews.{atom_view, sides_view};

use crate::states::{Atom, State};
use gro::{GroAtom, GroFrame};
use ring_box::{Place3, RingBox, Side, pm_of_place};
use std::alloc::{AllocError, Allocator};

impl<A: Allocator + Copy> State<A> {
    ghost use Rattle.std.specs.Prelude.{◌≡◌, IfOk};
    ghost use Rattle.gro.specs.Frames.{frame_view};
    ghost use Rattle.gro.specs.GroWriting.{FitsColumns};
    ghost use Rattle.state.specs.StateFrames.{IsFrameAtRest, frame_of};
    ghost use Rattle.state.specs.StateViews.{state_view};

    /// The GRO frame of the current coordinates. Title, residue numbers, names and sides are the state's. Each position
    /// is the integer number of picometres nearest to its grid coordinate, and velocities are zero.
    ///
    /// `AllocError` only if an allocation fails.
    pub fn frame(&self) -> Result<GroFrame<A>, AllocError>
        ensures value { IfOk result (λ f. frame_view f ≡ frame_of (state_view self.now)) }
        // All atoms are at rest and inside the box.
        ensures rest { IfOk result (λ f. IsFrameAtRest (frame_view f)) }
        // All numbers fit their columns, so reading the frame's text gives the same frame.
        ensures columns { IfOk result (λ f. FitsColumns (frame_view f)) }
    {
        let alloc = *self.atoms.allocator();
        let title = Vec::from_slice(alloc, &self.title)?;
        let atoms = framed_atoms(alloc, &self.ring, &self.atoms)?;
        let sides = sides(&self.ring);
        Ok(GroFrame {
            title,
            atoms,
            sides,
        })
    }
}

// The sides in 10^-5 nm.
fn sides(ring: &RingBox) -> [i64; 3]
    ensures value { result ≡ map pos (sides_view ring.now) }
    ensures sides { AreThree IsSide result }
{
    ring.sides()
}

// The atoms as atoms of the frame.
fn framed_atoms<A: Allocator>(
    alloc: A,
    ring: &RingBox,
    atoms: &[Atom],
) -> Result<Vec<GroAtom, A>, AllocError>
    ensures value { IfOk result (λ v. map gro.atom_view v.items ≡ map (framed_atom (sides_view ring.now)) (map atom_view atoms.now)) }
    ensures rest { IfOk result (λ v. AllByRecursion IsAtomAtRest (map gro.atom_view v.items)) }
{
    let mut framed = Vec::new(alloc);
    for atom in atoms {
        framed.push(framed_atom(ring, atom))?;
    }
    Ok(framed)
}

// The atom as an atom of the frame.
fn framed_atom(ring: &RingBox, atom: &Atom) -> GroAtom
    ensures value { gro.atom_view result ≡ framed_atom (sides_view ring.now) (atom_view atom.now) }
    ensures rest { IsAtomAtRest (gro.atom_view result) }
{
    GroAtom {
        number: atom.residue_number,
        residue: atom.residue,
        name: atom.name,
        at: position(ring, atom.current),
        velocity: [0, 0, 0],
    }
}

// The position in picometres.
fn position(ring: &RingBox, place: Place3) -> [i64; 3]
    ensures value { result ≡ position_of (sides_view ring.now) place }
    ensures within { AreThree IsInBox result }
{
    [
        coordinate(place.x, ring.x),
        coordinate(place.y, ring.y),
        coordinate(place.z, ring.z),
    ]
}

/// A grid coordinate in picometres from the box's corner.
fn coordinate(place: u32, side: Side) -> i64
    ensures value { result ≡ pm_of_place place side }
    ensures within { IsInBox result }
{
    pm_of_place(place, side)
}
