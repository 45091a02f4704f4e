//! Pairs of atoms of a cell, or of two cells, and their numbers in a tile.
//!
//! A number gives a worker random access to pairs. In a tile of two cells the number counts row by row: a row is an
//! atom of the first cell with all atoms of the second. In a tile of one cell the pair (i, j), i < j, has the number j
//! (j - 1) / 2 + i.

ghost use Rattle.std.specs.Prelude.{◌≡◌, ◌+◌, ◌*◌, ◌^◌, ◌<◌, ◌≤◌, length, slice_get, Some};
ghost use Rattle.cell_tiles.specs.Tiles.{pair_of, pairs_among, pairs_between};

use fixed::isqrt;
use ring_box::AtomPair;

/// The pair of two atoms, in either order.
#[inline]
pub(crate) fn in_order(a: u32, b: u32) -> AtomPair
    ensures { (result.low, result.high) ≡ pair_of a b }
{
    if a < b {
        AtomPair { low: a, high: b }
    } else {
        AtomPair { low: b, high: a }
    }
}

/// The number of pairs among these atoms.
#[tactic(auto, using(crate::proofs::NumberLemmas::among_count))]
pub(crate) fn count_among(atoms: &[u32]) -> u64
    requires { length atoms.now ≤ 65536 }
    ensures { result ≡ length (pairs_among atoms.now (length atoms.now)) }
{
    let n = atoms.len() as u64;
    (n * n - n) / 2
}

/// The indices (i, j), i < j, of the pair `k` of a list: k = j (j - 1) / 2 + i.
#[tactic(auto, using(crate::proofs::NumberLemmas::row_fits, crate::proofs::NumberLemmas::row_within, crate::proofs::NumberLemmas::row_number))]
pub(crate) fn indices_of_pair(k: u64) -> (u64, u64)
    requires { k < 2 ^ 32 }
    ensures order { result.0 < result.1 }
    ensures number { 2 * k + result.1 ≡ result.1 * result.1 + 2 * result.0 }
{
    let j = (isqrt(8 * u128::from(k) + 1) + 1) / 2;
    (k - (j * j - j) / 2, j)
}

/// The pair with the number `k` among these atoms.
#[tactic(auto, using(crate::proofs::NumberLemmas::among_at))]
pub(crate) fn pair_among(atoms: &[u32], k: u64) -> AtomPair
    requires few { length atoms.now ≤ 65536 }
    requires pair { k < length (pairs_among atoms.now (length atoms.now)) }
    ensures { slice_get (pairs_among atoms.now (length atoms.now)) k ≡ Some (result.low, result.high) }
{
    let (i, j) = indices_of_pair(k);
    in_order(atoms[j as usize], atoms[i as usize])
}

/// The number of pairs of one of these atoms with one of the others.
#[tactic(auto, using(crate::proofs::NumberLemmas::length_between))]
pub(crate) fn count_between(atoms: &[u32], others: &[u32]) -> u64
    requires atoms { length atoms.now ≤ 65536 }
    requires others { length others.now ≤ 65536 }
    ensures { result ≡ length (pairs_between atoms.now others.now) }
{
    atoms.len() as u64 * others.len() as u64
}

/// The pair with the number `k` of one of these atoms with one of the others.
#[tactic(auto, using(crate::proofs::NumberLemmas::between_some, crate::proofs::NumberLemmas::between_row, crate::proofs::NumberLemmas::between_column, crate::proofs::NumberLemmas::between_at))]
pub(crate) fn pair_between(atoms: &[u32], others: &[u32], k: u64) -> AtomPair
    requires { k < length (pairs_between atoms.now others.now) }
    ensures { slice_get (pairs_between atoms.now others.now) k ≡ Some (result.low, result.high) }
{
    let n = others.len() as u64;
    in_order(atoms[(k / n) as usize], others[(k % n) as usize])
}
