//! Writing a frame.

ghost use Rattle.std.specs.Prelude.{◌≡◌, ◌+◌, ◌<◌, ◌≤◌, ◌++◌, ◌∷◌, [], length, map, IfOk, pos, negsuc, ◌≤ℤ◌, IsTrue};
ghost use Rattle.std.specs.List.{flat_map, AllByRecursion};
ghost use Rattle.arrayvec.specs.ArrayVec.{array_vec_len};
ghost use Rattle.fallible.specs.Out.{CanCountFailure, Writes};
ghost use Rattle.line_text.specs.Parts.{ended, right_in};
ghost use Rattle.line_text.specs.Columns.{decimals_text};
ghost use Rattle.gro.specs.Frames.{atom_view, frame_view};
ghost use Rattle.gro.specs.GroText.{IsGroText};
ghost use Rattle.gro.specs.GroWriting.{count_line, atom_line, atom_lines, box_line, frame_text, FitsColumns, HasForm};

use crate::frames::{GroAtom, GroFrame};
use fallible::{Out, OutFault, write_all};
use itoa::Buffer;
use line_text::{Line, put, put_decimals_right, put_left, put_right};
use std::alloc::Allocator;

/// Writes a frame: its title, the number of its atoms, one line per atom, and its box. Positions have three decimals
/// and sides five, at the right of their columns. Velocities aren't written. No memory is allocated.
///
/// `OutFault` only if a write failed; then a prefix of the text has been written.
pub fn write<A: Allocator, O: Out>(frame: &GroFrame<A>, out: &mut O) -> Result<(), OutFault>
    requires { CanCountFailure (O.output out.old) }
    ensures writes { Writes (O.output out.old) (O.output out.new) (frame_text (frame_view frame.now)) result }
    // If the frame's numbers fit their columns, reading the written text gives exactly this frame.
    ensures again { IfOk result (λ _. FitsColumns (frame_view frame.now)
        → IsGroText (frame_text (frame_view frame.now)) (frame_view frame.now ∷ [])) }
{
    write_all(out, &frame.title)?;
    let line = count_between(frame);
    write_all(out, line.as_slice())?;
    write_atoms(frame.atoms.as_slice(), out)?;
    let line = whole_box_line(&frame.sides);
    write_all(out, line.as_slice())
}

/// Writes the lines of these atoms.
fn write_atoms<O: Out>(atoms: &[GroAtom], out: &mut O) -> Result<(), OutFault>
    requires room { CanCountFailure (O.output out.old) }
    requires few { length atoms.now ≤ 65536 }
    ensures writes { Writes (O.output out.old) (O.output out.new) (atom_lines 1 (map atom_view atoms.now)) result }
    ensures forms { IfOk result (λ _. AllByRecursion HasForm (map atom_view atoms.now)) }
{
    let mut index = 1;
    for atom in atoms {
        let line = whole_atom_line(index, atom);
        write_all(out, line.as_slice())?;
        index += 1;
    }
    Ok(())
}

/// The LF of the title's line, and the line of the number of atoms.
fn count_between<A: Allocator>(frame: &GroFrame<A>) -> Line
    ensures { result.items ≡ 10 ∷ ended (count_line (length (frame_view frame.now).atoms)) }
{
    let mut line = Line::new();
    let mut buffer = Buffer::new();
    put(&mut line, b"\n");
    put_right(
        &mut line,
        5,
        buffer
            .format(frame.atoms.as_slice().len() as u64)
            .as_bytes(),
    );
    put(&mut line, b"\n");
    line
}

/// An atom line with its LF.
fn whole_atom_line(index: u64, atom: &GroAtom) -> Line
    ensures items { result.items ≡ ended (atom_line index (atom_view atom.now)) }
    ensures form { HasForm (atom_view atom.now) }
{
    let mut line = Line::new();
    let mut buffer = Buffer::new();
    put_right(&mut line, 5, buffer.format(atom.number).as_bytes());
    put_left(&mut line, 5, atom.residue.as_bytes());
    put_right(&mut line, 5, atom.name.as_bytes());
    let mut buffer = Buffer::new();
    put_right(&mut line, 5, buffer.format(index % 100_000).as_bytes());
    put_three(&mut line, 8, 3, &atom.at);
    put(&mut line, b"\n");
    line
}

/// A box line with its LF.
fn whole_box_line(sides: &[i64; 3]) -> Line
    ensures { result.items ≡ ended (box_line sides.now) }
{
    let mut line = Line::new();
    put_three(&mut line, 10, 5, sides);
    put(&mut line, b"\n");
    line
}

/// Appends three numbers with `decimals` decimals, each at the right of a column of `width` bytes.
fn put_three(line: &mut Line, width: usize, decimals: usize, numbers: &[i64; 3])
    requires narrow { width ≤ 10 }
    requires room { array_vec_len line.old + 126 ≤ 160 }
    requires some { 0 < decimals }
    requires few { decimals ≤ 5 }
    ensures items { line.new.items ≡ line.old.items ++ flat_map (λ z. right_in width (decimals_text decimals z)) numbers.now }
    ensures len { array_vec_len line.new ≤ array_vec_len line.old + 126 }
{
    put_decimals_right(line, width, decimals, numbers[0]);
    put_decimals_right(line, width, decimals, numbers[1]);
    put_decimals_right(line, width, decimals, numbers[2]);
}
