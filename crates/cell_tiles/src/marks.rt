//! Marks: pairs that may interact, written as an atom and an index into the gathered atoms, and resolved to pairs
//! later.
//!
//! Each byte of a mask is looked up in a table of its set bits (`ByteTable`). Eight indices are written at once, each
//! beside the row's atom, but the count grows only by the number of set bits. One later pass makes pairs of all marks.
//! So no row has a loop whose end a processor mispredicts; if cells fit the cutoff, a row has only about three pairs.

ghost use Rattle.std.specs.Prelude.{◌≡◌, ℕ, ◌+◌, ◌%◌, ◌^◌, ◌<◌, ◌≤◌, ◌++◌, length, map, replicate, slice_index_or, All};
ghost use Rattle.std.specs.Simd.Lanes.{put_chunk};
ghost use Rattle.place_blocks.specs.Blocks.{AreUpperHalves};
ghost use Rattle.ring_box.specs.Places.{places_of};
ghost use Rattle.cell_tiles.specs.Cells.{AreInBlocks};
ghost use Rattle.cell_tiles.specs.Near.{ArePairsIn, IsMarkBelow, acting_in, lanes_of, mark, named};
ghost use Rattle.cell_tiles.specs.Tiles.{pairs_with};

use crate::byte_lanes::ByteTable;
use crate::gathered::Gathered;
use crate::lanes::{bits_of, next_lane};
use crate::near::FrameInBox;
use place_blocks::{Block, CellSpan, UpperHalves};
use std::marker::Model;
use std::simd::prelude::*;

/// At most 256 marks, in order: each an atom, and an index into a list of others. Contracts see the list of them.
/// Writes go eight at a time and only `count` marks are valid; hence 264 slots for 256 marks. At most 128 are resolved:
/// a row is marked before the test for room, and dropped if the marks are then more.
#[derive(Drop)]
pub(crate) struct Marks {
    atoms: [u32; 264],
    indices: [u8; 264],
    count: usize,
    table: ByteTable,
}

impl Model for Marks {
    ghost use Rattle.std.specs.Prelude.{ℕ, List, ◌≤◌, take};
    ghost use Rattle.std.specs.Simd.Lanes.{zip2};
    ghost use Rattle.cell_tiles.specs.Near.{mark};

    ghost Value = { List (ℕ × ℕ) };

    ghost view = { λ m. zip2 mark (take m.count m.atoms) (take m.count m.indices) };

    ghost invariant = { λ m. m.count ≤ 256 };
}

// Writes an atom eight times, from the slot `at` on.
#[inline(always)]
fn put_atom(atoms: &mut [u32], at: usize, atom: u32)
    requires { at + 8 ≤ length atoms.old }
    ensures { atoms.new ≡ put_chunk at atoms.old (replicate 8 atom) }
{
    u32x8::splat(atom).copy_to_slice(&mut atoms[at..]);
}

// Writes eight lanes, each plus `first`, as indices, from the slot `at` on.
#[inline(always)]
fn put_indices(indices: &mut [u8], at: usize, first: u8, lanes: [u8; 8])
    requires { at + 8 ≤ length indices.old }
    ensures { indices.new ≡ put_chunk at indices.old (map (λ j. (j + first) % 2 ^ 8) lanes) }
{
    let eight = u8x8::from_array(lanes) + u8x8::splat(first);
    eight.copy_to_slice(&mut indices[at..]);
}

impl Marks {
    ghost use Rattle.std.specs.Prelude.{[], take};

    /// No marks.
    pub(crate) fn new() -> Marks
        ensures { result ≡ [] }
    {
        Marks {
            atoms: [0; 264],
            indices: [0; 264],
            count: 0,
            table: ByteTable::new(),
        }
    }

    /// Empties the list.
    pub(crate) fn clear(&mut self)
        ensures { self.new ≡ [] }
    {
        self.count = 0;
    }

    /// The number of marks, at most 256.
    #[tactic(auto, using(crate::proofs::MarkLemmas::length_marks))]
    #[inline(always)]
    pub(crate) fn len(&self) -> usize
        ensures value { result ≡ length self.now }
        ensures few { result ≤ 256 }
    {
        self.count
    }

    /// Drops all marks but the first `count`.
    #[tactic(auto, using(crate::proofs::MarkLemmas::length_marks, crate::proofs::MarkLemmas::marks_cut))]
    #[inline(always)]
    fn cut(&mut self, count: usize)
        requires { count ≤ length self.old }
        ensures { self.new ≡ take count self.old }
    {
        self.count = count;
    }

    /// The mark with the number `e`: its atom and its index.
    #[tactic(auto, using(crate::proofs::MarkLemmas::length_marks, crate::proofs::MarkLemmas::mark_at))]
    #[inline(always)]
    pub(crate) fn at(&self, e: usize) -> (u32, usize)
        requires { e < length self.now }
        ensures { result ≡ slice_index_or self.now e (0, 0) }
    {
        let Marks { atoms, indices, .. } = self;
        (atoms[e], indices[e] as usize)
    }

    /// Marks an atom with the indices, of the eight from `first` on, whose bits are set in a byte.
    #[inline(always)]
    fn mark_byte(&mut self, atom: u32, first: u8, byte: usize)
        requires byte { byte < 256 }
        requires first { first ≤ 248 }
        requires room { length self.old + length (lanes_of byte) ≤ 256 }
        ensures { self.new ≡ self.old ++ map (λ j. mark atom (first + j)) (lanes_of byte) }
    {
        let lanes = self.table.bytes[byte];
        put_atom(&mut self.atoms, self.count, atom);
        put_indices(&mut self.indices, self.count, first, lanes.lanes);
        self.count += lanes.count;
    }

    /// Marks an atom with the indices, of the sixteen from `first` on, whose bits are set.
    #[tactic(auto, using(crate::proofs::MarkLemmas::block_long))]
    #[inline(always)]
    fn mark_block(&mut self, atom: u32, first: u8, bits: u64)
        requires bits { bits < 2 ^ 16 }
        requires first { first ≤ 240 }
        requires room { length self.old + length (lanes_of bits) ≤ 256 }
        ensures { self.new ≡ self.old ++ map (λ j. mark atom (first + j)) (lanes_of bits) }
    {
        self.mark_byte(atom, first, (bits % 256) as usize);
        self.mark_byte(atom, first + 8, (bits / 256) as usize);
    }
}

// ---- rows of pairs with gathered atoms

impl Marks {
    ghost use Rattle.std.specs.Prelude.{◌-◌, [], drop, take, slice_index};
    ghost use Rattle.std.specs.Int.{bit_at};
    ghost use Rattle.place_blocks.specs.Blocks.{AreInSpan};
    ghost use Rattle.cell_tiles.specs.Cells.{AreBlocks, AreLanes};
    ghost use Rattle.cell_tiles.specs.Tiles.{pairs_between};

    /// Marks an atom at these coarse coordinates with the gathered atoms that may interact with it.
    #[tactic(auto, using(crate::proofs::LaneLemmas::length_lanes))]
    #[inline(always)]
    fn mark_row(&mut self, frame: &FrameInBox, atom: u32, halves: UpperHalves, gathered: &Gathered)
        requires room { length self.old ≤ 128 }
        requires halves { AreUpperHalves halves (places_of frame.now.places.now atom) }
        requires gathered { AreInBlocks frame.now.places.now gathered.now.blocks 0 gathered.now.atoms }
        requires pairs { ArePairsIn frame.now (pairs_with atom gathered.now.atoms) }
        ensures acting { acting_in frame.now (named gathered.now.atoms self.new)
            ≡ acting_in frame.now (named gathered.now.atoms self.old) ++ acting_in frame.now (pairs_with atom gathered.now.atoms) }
        ensures listed { ArePairsIn frame.now (named gathered.now.atoms self.old)
            → ArePairsIn frame.now (named gathered.now.atoms self.new) }
        ensures below { All (IsMarkBelow (length gathered.now.atoms)) self.old → All (IsMarkBelow (length gathered.now.atoms)) self.new }
        ensures few { length self.new ≤ length self.old + length gathered.now.atoms }
        ensures gathered { length gathered.now.atoms ≤ 128 }
        ensures kept { take (length self.old) self.new ≡ self.old }
    {
        let count = gathered.atoms().len();
        let blocks = gathered.blocks();
        let mut seen = 0;
        while seen < count {
            let end = count.min(seen + 16);
            let near = frame.coarse.near(&blocks[seen / 16], halves);
            self.mark_block(atom, seen as u8, bits_of(near, 0, end - seen));
            seen = end;
        }
    }

    /// Marks pairs that may interact, of the up to sixteen atoms whose bits are set with all gathered atoms, row by
    /// row, as long as at most 128 are marked. Returns the number of atoms that were examined. The atoms have the lanes
    /// of a block, from the lane `first` on.
    #[tactic(auto, using(crate::proofs::LaneLemmas::lane_below))]
    #[inline(always)]
    fn mark_rows(
        &mut self,
        frame: &FrameInBox,
        gathered: &Gathered,
        block: &Block,
        first: usize,
        atoms: &[u32],
        marked: u64,
    ) -> usize
        requires lanes { first + length atoms.now ≤ 16 }
        requires marked { marked < 2 ^ length atoms.now }
        requires few { length self.old ≤ 128 }
        requires beside { AreLanes frame.now.places.now block.now first atoms.now }
        requires gathered { AreInBlocks frame.now.places.now gathered.now.blocks 0 gathered.now.atoms }
        requires pairs { All (λ a. ArePairsIn frame.now (pairs_with a gathered.now.atoms)) atoms.now }
        requires idle { (j : ℕ) → j < length atoms.now → bit_at marked j ≡ 0
            → acting_in frame.now (pairs_with (slice_index atoms.now j) gathered.now.atoms) ≡ [] }
        ensures acting { acting_in frame.now (named gathered.now.atoms self.new)
            ≡ acting_in frame.now (named gathered.now.atoms self.old)
            ++ acting_in frame.now (pairs_between (take result atoms.now) gathered.now.atoms) }
        ensures listed { ArePairsIn frame.now (named gathered.now.atoms self.old)
            → ArePairsIn frame.now (named gathered.now.atoms self.new) }
        ensures below { All (IsMarkBelow (length gathered.now.atoms)) self.old → All (IsMarkBelow (length gathered.now.atoms)) self.new }
        ensures within { result ≤ length atoms.now }
        ensures onward { 0 < length atoms.now → length self.old ≡ 0 → 0 < result }
        ensures few { length self.new ≤ 128 }
    {
        let mut next = 0;
        let mut left = marked;
        while left != 0 {
            let (row, rest) = next_lane(left);
            let before = self.len();
            self.mark_row(frame, atoms[row], block.at(first + row), gathered);
            if self.len() > 128 {
                self.cut(before);
                return next;
            }
            next = row + 1;
            left = rest;
        }
        atoms.len()
    }

    /// Marks pairs that may interact, of these atoms from the number `from` on with all gathered atoms, row by row, as
    /// long as at most 128 are marked. Returns the number of the atom with which to continue. `blocks` has the coarse
    /// coordinates of `atoms`, and the gathered atoms are in the span, so that sixteen rows are ruled out by one test.
    pub(crate) fn mark_cell(
        &mut self,
        frame: &FrameInBox,
        gathered: &Gathered,
        span: &CellSpan,
        atoms: &[u32],
        blocks: &[Block],
        from: usize,
    ) -> usize
        requires beside { AreBlocks frame.now.places.now atoms.now blocks.now }
        requires gathered { AreInBlocks frame.now.places.now gathered.now.blocks 0 gathered.now.atoms }
        requires span { All (λ b. AreInSpan span.now (places_of frame.now.places.now b)) gathered.now.atoms }
        requires pairs { All (λ a. ArePairsIn frame.now (pairs_with a gathered.now.atoms)) atoms.now }
        requires from { from < length atoms.now }
        requires few { length self.old ≤ 128 }
        ensures acting { acting_in frame.now (named gathered.now.atoms self.new)
            ≡ acting_in frame.now (named gathered.now.atoms self.old)
            ++ acting_in frame.now (pairs_between (take (result - from) (drop from atoms.now)) gathered.now.atoms) }
        ensures listed { ArePairsIn frame.now (named gathered.now.atoms self.old)
            → ArePairsIn frame.now (named gathered.now.atoms self.new) }
        ensures below { All (IsMarkBelow (length gathered.now.atoms)) self.old → All (IsMarkBelow (length gathered.now.atoms)) self.new }
        ensures within { result ≤ length atoms.now }
        ensures onward { length self.old ≡ 0 → from < result }
        ensures few { length self.new ≤ 128 }
    {
        let mut next = from;
        while next < atoms.len() {
            let lane = next % 16;
            let end = atoms.len().min(next + (16 - lane));
            let block = &blocks[next / 16];
            let marked = bits_of(frame.coarse.near_cell(block, span), lane, end - next);
            next += self.mark_rows(frame, gathered, block, lane, &atoms[next..end], marked);
            if next < end {
                return next;
            }
        }
        next
    }
}
