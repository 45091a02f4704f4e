//! The distances of slices.

ghost use Rattle.std.specs.Prelude.{◌≡◌, ◌+◌, ◌*◌, ◌/◌, ◌^◌, ◌<◌, ◌≤◌, ◌<ℤ◌, ◌≤ℤ◌, pos, ◌+ℤ◌, ◌-ℤ◌};

use fixed::Fx;
use interval_domain::Span;

/// The number of distances before slice `i`, if `width` distances are divided into `slices` slices.
pub fn share(width: u64, i: u32, slices: u32) -> u64
    requires slice { i ≤ slices }
    requires slices { 0 < slices }
    ensures exact { result ≡ width * i / slices }
    ensures within { result ≤ width }
{
    (width as u128 * i as u128 / slices as u128) as u64
}

/// The interval of the distances from `core + from` up to but not including `core + end`, as raw values.
pub fn slice_span(core: Fx, from: u64, end: u64) -> Span
    requires core { pos 0 ≤ℤ core }
    requires some { from < end }
    requires end { (core +ℤ pos end) <ℤ pos (2 ^ 63) }
    ensures lo { result.lo ≡ core +ℤ pos from }
    ensures hi { result.hi ≡ core +ℤ pos end -ℤ pos 1 }
{
    Span {
        lo: Fx::from_raw(core.raw() + from as i64),
        hi: Fx::from_raw(core.raw() + (end as i64 - 1)),
    }
}

/// The number of distances from `core` up to but not including `cutoff`.
pub fn width_of(core: Fx, cutoff: Fx) -> u64
    requires core { pos 0 ≤ℤ core }
    requires range { core <ℤ cutoff }
    ensures width { core +ℤ pos result ≡ cutoff }
    ensures fits { (core +ℤ pos result) <ℤ pos (2 ^ 63) }
{
    (cutoff.raw() - core.raw()) as u64
}
