//! Frames of a GRO file, and their atoms.

ghost use Rattle.std.specs.Prelude.{pos, negsuc, ◌≤ℤ◌, ◌≤◌, length, IsTrue};
ghost use Rattle.line_text.specs.Parts.{is_title};

use line_text::Name;
use std::alloc::Allocator;

/// An atom of a frame.
#[derive(Clone, Copy)]
pub struct GroAtom {
    /// The number of its residue, -9999 to 99999.
    pub number: i32,
    /// The name of its residue.
    pub residue: Name,
    /// The name of the atom.
    pub name: Name,
    /// Its position x, y and z, in picometres.
    pub at: [i64; 3],
    /// Its velocity along x, y and z in 10^-4 nm/ps; zero if the file has none.
    pub velocity: [i64; 3],
    pub ghost low: { negsuc 9998 ≤ℤ number },
    pub ghost high: { number ≤ℤ pos 99999 },
}

/// One frame of a GRO file (GROMACS manual, gro file format).
#[derive(Drop)]
pub struct GroFrame<A: Allocator> {
    /// The title: any bytes except LF, not ending in CR.
    pub title: Vec<u8, A>,
    /// The atoms, at most 65,536.
    pub atoms: Vec<GroAtom, A>,
    /// The sides of the rectangular box, in 10^-5 nm.
    pub sides: [i64; 3],
    pub ghost title_fits: { IsTrue (is_title title.items) },
    pub ghost count_fits: { length atoms.items ≤ 65536 },
}
