//! Rows of integers, one for each pair of a batch, that are read and written four at a time.

ghost use Rattle.std.specs.Prelude.{ℕ, ◌≡◌, ◌+◌, ◌≤◌, ◌<◌, pos, slice_index_or};
ghost use Rattle.ring_box.specs.FloatRows.{IsWithFour};

use fixed::Fx;

/// The integers of four fixed-point numbers of a row, from the index `l` on.
#[inline(always)]
pub(crate) fn four_raw(row: &[Fx; 128], l: usize) -> [i64; 4]
    requires { l + 4 ≤ 128 }
    ensures { (k : ℕ) → k < 4 → slice_index_or result k (pos 0) ≡ slice_index_or row.now (l + k) (pos 0) }
{
    [
        row[l].raw(),
        row[l + 1].raw(),
        row[l + 2].raw(),
        row[l + 3].raw(),
    ]
}

/// Writes four integers to a row, from the index `l` on.
#[inline(always)]
pub(crate) fn put_four(row: &mut [i64; 128], l: usize, four: [i64; 4])
    requires { l + 4 ≤ 128 }
    ensures { IsWithFour row.old l four row.new }
{
    row[l] = four[0];
    row[l + 1] = four[1];
    row[l + 2] = four[2];
    row[l + 3] = four[3];
}
