//! The lines of the velocities of the atoms of a state.

ghost use Rattle.std.specs.Prelude.{◌≡◌, ◌≤◌, ◌<◌, ◌+◌, ◌*◌, ◌^◌, ◌++◌, ◌∷◌, pos, ◌*ℤ◌, ◌<ℤ◌, unsigned_abs, IfOk, OnOk, map};
ghost use Rattle.std.specs.Fmt.{signed_decimal};
ghost use Rattle.arrayvec.specs.ArrayVec.{array_vec_len};
ghost use Rattle.line_text.specs.Columns.{decimals_text};
ghost use Rattle.line_text.specs.Parts.{ended};
ghost use Rattle.ring_box.specs.Places.{difference};
ghost use Rattle.state.specs.StateText.{columns_of};
ghost use Rattle.state.specs.StateViews.{atom_view, sides_view};
ghost use Rattle.state.specs.VelocityLines.{moved_text, velocities_text, velocity_line, velocity_lines, velocity_of};

use crate::lines::put_columns;
use crate::states::Atom;
use fixed::round_div;
use job::TimeStep;
use line_text::{Line, put, put_decimals, put_word};
use ring_box::{RingBox, Side, diff};
use std::alloc::{AllocError, Allocator};

/// The lines of the velocities of these atoms in the last time step: residue number, residue name and atom name in the
/// columns of a state's atom line; then the displacement from the previous frame to the current one along x, y and z,
/// in grid units of side/2^32, along the shortest way around the box; then the velocity along x, y and z in nm/ps, with
/// six decimals, rounded to nearest. Each number follows a space.
///
/// `AllocError` only if an allocation fails.
pub fn velocity_lines<A: Allocator + Copy>(
    alloc: A,
    atoms: &[Atom],
    ring: RingBox,
    time_step: TimeStep,
) -> Result<Vec<u8, A>, AllocError>
    ensures { IfOk result (λ text. text.items ≡ velocity_lines time_step (sides_view ring) (map atom_view atoms.now)) }
{
    let mut text = Vec::new(alloc);
    for atom in atoms {
        put_line(&mut text, atom, &ring, time_step)?;
    }
    Ok(text)
}

/// Appends the line of an atom, with its LF.
fn put_line<A: Allocator>(
    text: &mut Vec<u8, A>,
    atom: &Atom,
    ring: &RingBox,
    time_step: TimeStep,
) -> Result<(), AllocError>
    ensures { OnOk result (text.new.items ≡ text.old.items ++ ended (velocity_line time_step (sides_view ring.now) (atom_view atom.now))) }
{
    text.extend_from_slice(front(atom).as_slice())?;
    text.extend_from_slice(end(atom, ring, time_step).as_slice())?;
    Ok(())
}

/// The columns of an atom, and its displacements.
fn front(atom: &Atom) -> Line
    ensures { result.items ≡ columns_of (atom_view atom.now) ++ moved_text (atom_view atom.now) }
{
    let mut line = Line::new();
    put_columns(&mut line, atom);
    put_displacement(&mut line, atom.previous.x, atom.current.x);
    put_displacement(&mut line, atom.previous.y, atom.current.y);
    put_displacement(&mut line, atom.previous.z, atom.current.z);
    line
}

/// The velocities of an atom, with the line's LF.
fn end(atom: &Atom, ring: &RingBox, time_step: TimeStep) -> Line
    ensures { result.items ≡ ended (velocities_text time_step (sides_view ring.now) (atom_view atom.now)) }
{
    let mut line = Line::new();
    put_velocity(
        &mut line,
        time_step,
        ring.x,
        atom.previous.x,
        atom.current.x,
    );
    put_velocity(
        &mut line,
        time_step,
        ring.y,
        atom.previous.y,
        atom.current.y,
    );
    put_velocity(
        &mut line,
        time_step,
        ring.z,
        atom.previous.z,
        atom.current.z,
    );
    put(&mut line, b"\n");
    line
}

/// Appends a displacement in grid units, after a space.
fn put_displacement(line: &mut Line, from: u32, to: u32)
    requires { array_vec_len line.old + 12 ≤ 160 }
    ensures items { line.new.items ≡ line.old.items ++ 32 ∷ signed_decimal (difference to from) }
    ensures len { array_vec_len line.new ≤ array_vec_len line.old + 12 }
{
    put_word(line, diff(to, from));
}

/// Appends the velocity in nm/ps of a displacement along a side, after a space.
fn put_velocity(line: &mut Line, time_step: TimeStep, side: Side, from: u32, to: u32)
    requires { array_vec_len line.old + 49 ≤ 160 }
    ensures items { line.new.items ≡ line.old.items ++ 32 ∷ decimals_text 6 (velocity_of time_step side (difference to from)) }
    ensures len { array_vec_len line.new ≤ array_vec_len line.old + 49 }
{
    put(line, b" ");
    put_decimals(line, 6, velocity(time_step, side, diff(to, from)));
}

/// The velocity, in 10^-6 nm/ps and rounded to nearest, of a displacement along a side.
fn velocity(time_step: TimeStep, side: Side, moved: i32) -> i128
    ensures { result ≡ velocity_of time_step side moved }
{
    round_div(distance(side, moved), divisor(time_step))
}

/// A displacement along a side, in 10^-9 nm / 2^32.
fn distance(side: Side, moved: i32) -> i128
    ensures value { result ≡ moved *ℤ pos (10000 * side) }
    ensures bound { unsigned_abs result < 2 ^ 80 }
{
    i128::from(moved) * i128::from(10_000 * u64::from(side.get()))
}

/// A time step in fs, times 2^32.
fn divisor(time_step: TimeStep) -> i128
    ensures value { result ≡ pos (2 ^ 32 * time_step) }
    ensures positive { pos 0 <ℤ result }
    ensures bound { unsigned_abs result < 2 ^ 80 }
{
    i128::from(4_294_967_296 * u64::from(time_step.femtoseconds()))
}
