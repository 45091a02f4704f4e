//! The lines of the forces on the atoms of a state.

ghost use Rattle.std.specs.Prelude.{◌≡◌, IfOk, map};
ghost use Rattle.line_text.specs.Parts.{ended};
ghost use Rattle.state.specs.ForceLines.{force_line, force_lines};
ghost use Rattle.state.specs.StateViews.{atom_view};

use crate::lines::put_columns;
use crate::states::Atom;
use line_text::{Line, put, put_word};
use ring_box::Vector;
use std::alloc::{AllocError, Allocator};

/// The lines of the forces on these atoms: residue number, residue name and atom name in the columns of a state's atom
/// line, and the force along x, y and z in 2^-bits kJ/mol/nm, each after a space. The text ends with the shorter list.
///
/// `AllocError` only if an allocation fails.
pub fn force_lines<A: Allocator + Copy>(
    alloc: A,
    mut atoms: &[Atom],
    mut forces: &[Vector<i64>],
) -> Result<Vec<u8, A>, AllocError>
    ensures { IfOk result (λ text. text.items ≡ force_lines (map atom_view atoms.entry.now) forces.entry.now) }
{
    let mut text = Vec::new(alloc);
    while let [atom, more_atoms @ ..] = atoms {
        let [force, more_forces @ ..] = forces else {
            break;
        };
        let line = whole_line(atom, force);
        text.extend_from_slice(line.as_slice())?;
        atoms = more_atoms;
        forces = more_forces;
    }
    Ok(text)
}

/// The line of an atom, with its LF.
fn whole_line(atom: &Atom, force: &Vector<i64>) -> Line
    ensures { result.items ≡ ended (force_line (atom_view atom.now) force.now) }
{
    let mut line = Line::new();
    put_columns(&mut line, atom);
    put_word(&mut line, force.x);
    put_word(&mut line, force.y);
    put_word(&mut line, force.z);
    put(&mut line, b"\n");
    line
}
