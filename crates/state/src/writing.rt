//! Writing a state.

ghost use Rattle.std.specs.Prelude.{◌≡◌, length, map};
ghost use Rattle.fallible.specs.Out.{CanCountFailure, Writes};
ghost use Rattle.line_text.specs.Parts.{ended};
ghost use Rattle.state.specs.StateText.{atom_line, atom_lines};
ghost use Rattle.state.specs.StateViews.{atom_view, state_view};
ghost use Rattle.state.specs.Middle.{front, middle};

use crate::lines::{put_atom, put_bits, put_sides};
use crate::states::{Atom, State};
use crate::versions::Version;
use fallible::{Out, OutFault, write_all};
use fixed::Frac;
use line_text::{Line, put, put_integer, put_word};
use std::alloc::Allocator;

impl<A: Allocator> State<A> {
    ghost use Rattle.std.specs.Prelude.{IfOk, Ok};
    ghost use Rattle.fallible.specs.Out.{CanCountFailure, Writes};
    ghost use Rattle.state.specs.StateFaults.{ReadsAs};
    ghost use Rattle.state.specs.StateText.{state_text};
    ghost use Rattle.state.specs.StateViews.{state_view};

    /// Writes the text of the state, without allocating memory.
    ///
    /// `OutFault` only if a write failed; then a prefix of the text has been written.
    pub fn write<O: Out>(&self, out: &mut O) -> Result<(), OutFault>
        requires { CanCountFailure (O.output out.old) }
        ensures writes { Writes (O.output out.old) (O.output out.new) (state_text (state_view self.now)) result }
        // Reading the written text gives this state.
        ensures again { IfOk result (λ _. ReadsAs (state_text (state_view self.now)) (Ok (state_view self.now))) }
    {
        write_all(out, front(self.frac))?;
        write_all(out, &self.title)?;
        let line = middle_line(self);
        write_all(out, line.as_slice())?;
        write_atoms(self.atoms.as_slice(), out)
    }
}

/// Writes the lines of these atoms.
fn write_atoms<O: Out>(atoms: &[Atom], out: &mut O) -> Result<(), OutFault>
    requires { CanCountFailure (O.output out.old) }
    ensures { Writes (O.output out.old) (O.output out.new) (atom_lines (map atom_view atoms.now)) result }
{
    for atom in atoms {
        let line = whole_line(atom);
        write_all(out, line.as_slice())?;
    }
    Ok(())
}

/// The text before the title.
fn front(frac: Frac) -> &'static [u8]
    ensures { result.now ≡ front frac }
{
    match Version::of(frac) {
        Version::First => b"pairmd state 1\ntitle ",
        Version::Second => b"pairmd state 2\ntitle ",
    }
}

/// The text between the title and the atom lines: step, fraction bits if they aren't 32, number of atoms, box.
fn middle_line<A: Allocator>(state: &State<A>) -> Line
    ensures { let s = state_view state.now in
        result.items ≡ middle s.step s.frac (length s.atoms) s.sides }
{
    let mut line = Line::new();
    put(&mut line, b"\nstep ");
    put_integer(&mut line, state.step);
    put(&mut line, b"\n");
    put_bits(&mut line, state.frac);
    put(&mut line, b"atoms");
    put_word(&mut line, state.atoms.as_slice().len() as u64);
    put(&mut line, b"\nbox");
    put_sides(&mut line, state.ring);
    put(&mut line, b"\n");
    line
}

/// An atom line with its LF.
fn whole_line(atom: &Atom) -> Line
    ensures { result.items ≡ ended (atom_line (atom_view atom.now)) }
{
    let mut line = Line::new();
    put_atom(&mut line, atom);
    put(&mut line, b"\n");
    line
}
