//! The pressure, and the pressure along two axes.

use crate::fractions::{nearest, scaled};
use crate::observations::Observation;
use crate::scales::Scales;
use crate::values::length_on;
use crate::whole::Whole;
use ring_box::Axis;

impl Scales {
    ghost use Rattle.std.specs.Prelude.{◌≡◌, ◌≤◌, ◌<◌, ◌*◌, ◌^◌, unsigned_abs};
    ghost use Rattle.observables.specs.Ratios.{IsWithin, decimal_of, plus, ratio, times};
    ghost use Rattle.observables.specs.Bounds.{IsBetween};
    ghost use Rattle.observables.specs.Observables.{kinetic_unit, pressure_of, virial_unit, volume};

    // The numerator of twice a kinetic energy plus a sum of `orders` virials. Its denominator is the product of both
    // denominators.
    fn energies(&self, kinetic: &Whole, virial: &Whole, orders: u64) -> Whole
        requires volume { volume self.now.ring < 2 ^ 72 }
        requires kinetic { unsigned_abs kinetic.now ≤ volume self.now.ring * 2 ^ 133 }
        requires virial { unsigned_abs virial.now ≤ volume self.now.ring * 2 ^ 128 }
        requires orders { IsBetween 1 3 orders }
        ensures value { result ≡ (plus (times (ratio kinetic.now (kinetic_unit self.now.time_step)) 2)
            (ratio virial.now (virial_unit self.now * orders))).numerator }
        ensures bound { unsigned_abs result < 2 ^ 318 }
        ensures within { IsWithin (volume self.now.ring * 2 ^ 57)
            (plus (times (ratio kinetic.now (kinetic_unit self.now.time_step)) 2)
            (ratio virial.now (virial_unit self.now * orders))) }
        ensures kinetic { IsBetween (2 ^ 95) (2 ^ 117) (kinetic_unit self.now.time_step) }
        ensures virial { IsBetween (2 ^ 72) (2 ^ 90) (virial_unit self.now * orders) }
    {
        let twice = scaled(&kinetic.times(2), &self.virial_divisors(orders));
        let virial = scaled(virial, &self.kinetic_divisors());
        twice.plus(&virial)
    }

    // The pressure in 10^-3 bar of a kinetic energy and the mean of `orders` virials, by `volumes` volumes. Both are
    // given by their numerators.
    fn pressure_of(&self, kinetic: &Whole, virial: &Whole, orders: u64, volumes: u64) -> i128
        requires kinetic { unsigned_abs kinetic.now ≤ volume self.now.ring * 2 ^ 133 }
        requires virial { unsigned_abs virial.now ≤ volume self.now.ring * 2 ^ 128 }
        requires orders { IsBetween 1 3 orders }
        requires volumes { IsBetween 1 4 volumes }
        ensures { result ≡ decimal_of 3 (pressure_of (ratio kinetic.now (kinetic_unit self.now.time_step))
            (ratio virial.now (virial_unit self.now * orders)) (volumes * volume self.now.ring)) }
    {
        let divisors = self.pressure_divisors(orders, volumes);
        let units = scaled(
            &self.energies(kinetic, virial, orders),
            &[10_000_000_000_000_000, 1_000_000_000],
        );
        nearest(&units.times(1000), &divisors)
    }
}

impl Observation {
    ghost use Rattle.std.specs.Prelude.{◌≡◌, ◌≤◌, ◌<◌, ◌*◌, ◌^◌, unsigned_abs};
    ghost use Rattle.observables.specs.Ratios.{decimal_of};
    ghost use Rattle.observables.specs.Observables.{diagonal, kinetic_tensor, lengths, pressure, pressure_tensor, products_of, virial_on, virial_tensor, volume};

    // The numerator of the virial.
    fn virial_lengths(&self, scales: &Scales) -> Whole
        ensures value { result ≡ lengths scales.now.ring (diagonal self.now.pairs.sums.virial) }
        ensures by_volume { unsigned_abs result ≤ volume scales.now.ring * 2 ^ 128 }
    {
        let x = length_on(scales.ring.x, self.pairs.sums.virial.x.x);
        let y = length_on(scales.ring.y, self.pairs.sums.virial.y.y);
        let z = length_on(scales.ring.z, self.pairs.sums.virial.z.z);
        x.plus(&y).plus(&z)
    }

    // The pressure in 10^-3 bar.
    pub(crate) fn pressure(&self, scales: &Scales) -> i128
        ensures { result ≡ decimal_of 3 (pressure scales.now self.now) }
    {
        let kinetic = self.square_lengths(scales);
        scales.pressure_of(&kinetic, &self.virial_lengths(scales), 1, 3)
    }

    // The sum of mass times the product of the displacements along both axes.
    fn products_of(&self, a: Axis, b: Axis) -> i128
        ensures value { result ≡ products_of a b self.now }
        ensures bound { unsigned_abs result ≤ 2 ^ 107 }
    {
        match (a, b) {
            (Axis::X, Axis::X) => self.squares.x as i128,
            (Axis::Y, Axis::Y) => self.squares.y as i128,
            (Axis::Z, Axis::Z) => self.squares.z as i128,
            (Axis::Y, Axis::Z) => self.products.x,
            (Axis::Z, Axis::Y) => self.products.x,
            (Axis::Z, Axis::X) => self.products.y,
            (Axis::X, Axis::Z) => self.products.y,
            (Axis::X, Axis::Y) => self.products.z,
            (Axis::Y, Axis::X) => self.products.z,
        }
    }

    // The numerator of the kinetic energy along both axes.
    fn product_lengths(&self, a: Axis, b: Axis, scales: &Scales) -> Whole
        ensures value { result ≡ (kinetic_tensor a b scales.now self.now).numerator }
        ensures by_volume { unsigned_abs result ≤ volume scales.now.ring * 2 ^ 133 }
    {
        let products = Whole::of(self.products_of(a, b));
        products.times(scales.side(a)).times(scales.side(b))
    }

    // The sum over pairs of the force along `a` times the separation along `b`, in grid units times the side.
    fn virial_on(&self, a: Axis, b: Axis, scales: &Scales) -> Whole
        ensures value { result ≡ virial_on a b scales.now self.now }
        ensures bound { unsigned_abs result ≤ 2 ^ 150 }
        ensures by_volume { unsigned_abs result ≤ volume scales.now.ring * 2 ^ 126 }
    {
        Whole::of(self.pairs.sums.virial.along(a).along(b)).times(scales.side(b))
    }

    // The numerator of the virial along both axes.
    fn virial_along(&self, a: Axis, b: Axis, scales: &Scales) -> Whole
        ensures value { result ≡ (virial_tensor a b scales.now self.now).numerator }
        ensures by_volume { unsigned_abs result ≤ volume scales.now.ring * 2 ^ 128 }
    {
        let other = self.virial_on(b, a, scales);
        self.virial_on(a, b, scales).plus(&other)
    }

    /// The component of the pressure tensor along two axes in 10^-3 bar.
    pub fn pressure_along(&self, a: Axis, b: Axis, scales: &Scales) -> i128
        ensures { result ≡ decimal_of 3 (pressure_tensor a b scales.now self.now) }
    {
        let kinetic = self.product_lengths(a, b, scales);
        scales.pressure_of(&kinetic, &self.virial_along(a, b, scales), 2, 1)
    }
}
