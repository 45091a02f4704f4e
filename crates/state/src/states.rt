//! States and their atoms.

ghost use Rattle.std.specs.Prelude.{pos, negsuc, ◌≤ℤ◌, ◌≤◌, ◌<◌, ◌^◌, length, IsTrue};
ghost use lib.Signed.{mag};
ghost use Rattle.line_text.specs.Parts.{is_title};
ghost use Rattle.ring_box.specs.Places.{ArePlaces};
ghost use Rattle.state.specs.StateText.{IsSide};

use fixed::Frac;
use line_text::Name;
use ring_box::{Place3, RingBox};
use std::alloc::Allocator;

/// An atom of a state, with its grid coordinates in two consecutive frames.
#[derive(Clone, Copy)]
pub struct Atom {
    /// The number of its residue, -9999 to 99999.
    pub residue_number: i32,
    /// The name of its residue.
    pub residue: Name,
    /// The name of the atom, which is also the name of its type.
    pub name: Name,
    /// Its grid coordinates in the previous frame.
    pub previous: Place3,
    /// Its grid coordinates in the current frame.
    pub current: Place3,
    pub ghost low: { negsuc 9998 ≤ℤ residue_number },
    pub ghost high: { residue_number ≤ℤ pos 99999 },
    pub ghost previous_fits: { ArePlaces previous },
    pub ghost current_fits: { ArePlaces current },
}

/// A state of a run: two consecutive frames. They determine the next frame, and equally exactly the frame before them
/// (Levesque and Verlet 1993). A state has exactly one text.
#[derive(Drop)]
pub struct State<A: Allocator> {
    /// The title: any bytes except LF, not ending in CR.
    pub title: Vec<u8, A>,
    /// The step counter of the current frame.
    pub step: i64,
    /// The number of fraction bits of the run's numbers. The text has a line for it unless it is 32.
    pub frac: Frac,
    /// The periodic box.
    pub ring: RingBox,
    /// The atoms, at most 65,536.
    pub atoms: Vec<Atom, A>,
    pub ghost title_fits: { IsTrue (is_title title.items) },
    pub ghost step_fits: { mag step < 2 ^ 63 },
    pub ghost x_fits: { IsSide ring.x },
    pub ghost y_fits: { IsSide ring.y },
    pub ghost z_fits: { IsSide ring.z },
    pub ghost count_fits: { length atoms.items ≤ 65536 },
}
