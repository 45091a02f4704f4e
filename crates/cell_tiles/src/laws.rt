//! Laws of the tiles: each pair of close atoms is in exactly one tile.

ghost use Rattle.std.specs.Prelude.{List, All};
ghost use Rattle.ring_box.specs.Places.{ArePlaces};
ghost use Rattle.ring_box.specs.declared.vectors.CellBits.{CellBits};
ghost use Rattle.ring_box.specs.declared.vectors.Place3.{Place3};
ghost use Rattle.cell_tiles.specs.Cells.{IsGrid};
ghost use Rattle.cell_tiles.specs.Cover.{Covers, SumsAsAll};

/// Law: each pair of atoms in one cell or in neighbouring cells is in one tile, once, and no other pair is in any.
#[tactic(auto, using(crate::proofs::CoverLemmas::covers))]
pub fn each_pair_once()
    ensures { (bits : CellBits) (frame : List Place3) → IsGrid bits → All ArePlaces frame → Covers bits frame }
{}

/// Law: the sum over the tiles is the sum over all pairs of atoms, for each amount that is 0 for pairs that are neither
/// in one cell nor in neighbouring cells.
pub fn sums_as_all()
    ensures { (bits : CellBits) (frame : List Place3) → IsGrid bits → All ArePlaces frame → SumsAsAll bits frame }
{}
