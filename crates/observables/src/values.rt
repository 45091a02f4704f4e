//! The values of a table's columns, each an integer in units of its last decimal.

ghost use Rattle.std.specs.Prelude.{◌≡◌, ◌≤◌, ◌<◌, ◌*◌, ◌^◌, pos, ◌*ℤ◌, unsigned_abs};
ghost use Rattle.observables.specs.Ratios.{decimal_of};
ghost use Rattle.observables.specs.Observables.{distance, momentum};

use crate::fractions::{nearest, scaled};
use crate::observations::Observation;
use crate::scales::Scales;
use crate::whole::Whole;
use fixed::Fx;
use job::TimeStep;
use ring_box::{Axis, Side};

// A sum of mass times squared displacement in grid units, times the square of the side.
fn squares_on(side: Side, squares: u128) -> Whole
    requires { squares < 2 ^ 107 }
    ensures value { result ≡ pos (squares * (side * side)) }
    ensures bound { squares * (side * side) < 2 ^ 155 }
    ensures positive { 0 < side }
    ensures most { side ≤ 16000000 }
{
    let side = u64::from(side.get());
    Whole::of_natural(squares).times(side).times(side)
}

// A sum in grid units times the side.
pub(crate) fn length_on(side: Side, places: i128) -> Whole
    requires { unsigned_abs places ≤ 2 ^ 126 }
    ensures value { result ≡ places *ℤ pos side }
    ensures bound { unsigned_abs result ≤ 2 ^ 150 }
    ensures positive { 0 < side }
    ensures most { side ≤ 16000000 }
{
    Whole::of(places).times(u64::from(side.get()))
}

// The momentum along a side in 10^-6 u nm/ps.
fn momentum_on(side: Side, moment: i128, scales: &Scales) -> i128
    requires { unsigned_abs moment ≤ 2 ^ 74 }
    ensures { result ≡ decimal_of 6 (momentum scales.now side moment) }
{
    nearest(
        &length_on(side, moment).times(1_000_000),
        &scales.momentum_divisors(),
    )
}

// A number of steps times the time step in fs.
fn time_of(step: i64, time_step: TimeStep) -> i128
    ensures { result ≡ step *ℤ pos time_step }
{
    i128::from(step) * i128::from(time_step.femtoseconds())
}

// A distance in 10^-6 nm.
fn distance(r: Fx, scales: &Scales) -> i128
    ensures { result ≡ decimal_of 6 (distance scales.now r) }
{
    nearest(
        &Whole::of(i128::from(r.raw())).times(1_000_000),
        &[scales.one()],
    )
}

impl Observation {
    ghost use Rattle.std.specs.Prelude.{◌≡◌, ◌≤◌, ◌<◌, ◌*◌, ◌^◌, pos, ◌*ℤ◌, unsigned_abs, Some};
    ghost use Rattle.std.specs.Option.{option_map};
    ghost use Rattle.fixed.specs.Fractions.{bits_of};
    ghost use Rattle.observables.specs.Ratios.{decimal_of, IsWithin};
    ghost use Rattle.observables.specs.Bounds.{IsBetween};
    ghost use Rattle.ring_box.specs.Axes.{component_along, side_along};
    ghost use Rattle.observables.specs.Observables.{square_lengths, volume, kinetic_energy, potential_energy, total_energy, temperature, kinetic_unit, momentum, nearest_distance, nearest_in_bits, time};

    // The numerator of the kinetic energy.
    pub(crate) fn square_lengths(&self, scales: &Scales) -> Whole
        ensures value { result ≡ pos (square_lengths scales.now.ring self.now.squares) }
        ensures bound { unsigned_abs result < 2 ^ 157 }
        ensures by_volume { unsigned_abs result ≤ volume scales.now.ring * 2 ^ 133 }
    {
        let x = squares_on(scales.ring.x, self.squares.x);
        let y = squares_on(scales.ring.y, self.squares.y);
        let z = squares_on(scales.ring.z, self.squares.z);
        x.plus(&y).plus(&z)
    }

    // The time in fs.
    pub(crate) fn time(&self, scales: &Scales) -> i128
        ensures { result ≡ time scales.now self.now }
    {
        time_of(self.step, scales.time_step)
    }

    // The potential energy in 10^-6 kJ/mol.
    pub(crate) fn potential_energy(&self, scales: &Scales) -> i128
        ensures { result ≡ decimal_of 6 (potential_energy scales.now self.now) }
    {
        nearest(
            &Whole::of(self.pairs.energy).times(1_000_000),
            &[scales.one()],
        )
    }

    // The kinetic energy in 10^-6 kJ/mol.
    pub(crate) fn kinetic_energy(&self, scales: &Scales) -> i128
        ensures { result ≡ decimal_of 6 (kinetic_energy scales.now self.now) }
    {
        nearest(
            &self.square_lengths(scales).times(1_000_000),
            &scales.kinetic_divisors(),
        )
    }

    // The numerator of the total energy. Its denominator is the product of the denominators of both energies.
    fn total_lengths(&self, scales: &Scales) -> Whole
        ensures value { result ≡ (total_energy scales.now self.now).numerator }
        ensures bound { unsigned_abs result < 2 ^ 218 }
        ensures within { IsWithin (2 ^ 77) (total_energy scales.now self.now) }
        ensures kinetic { IsBetween (2 ^ 95) (2 ^ 117) (kinetic_unit scales.now.time_step) }
        ensures potential { IsBetween (2 ^ 24) (2 ^ 41) (2 ^ bits_of scales.now.frac) }
    {
        let potential = scaled(&Whole::of(self.pairs.energy), &scales.kinetic_divisors());
        let kinetic = self.square_lengths(scales).times(scales.one());
        potential.plus(&kinetic)
    }

    // The total energy in 10^-6 kJ/mol.
    pub(crate) fn total_energy(&self, scales: &Scales) -> i128
        ensures { result ≡ decimal_of 6 (total_energy scales.now self.now) }
    {
        nearest(
            &self.total_lengths(scales).times(1_000_000),
            &scales.total_divisors(),
        )
    }

    // The temperature in 10^-3 K; `None` for fewer than two atoms.
    pub(crate) fn temperature(&self, scales: &Scales) -> Option<i128>
        ensures { result ≡ option_map (decimal_of 3) (temperature scales.now self.now) }
    {
        if scales.atoms < 2 {
            return None;
        }
        Some(nearest(
            &self
                .square_lengths(scales)
                .times(200_000_000_000_000_000)
                .times(1000),
            &scales.temperature_divisors(),
        ))
    }

    // The momentum along an axis in 10^-6 u nm/ps.
    pub(crate) fn momentum_along(&self, axis: Axis, scales: &Scales) -> i128
        ensures { result ≡ decimal_of 6 (momentum scales.now (side_along axis scales.now.ring) (component_along axis self.now.momentum)) }
    {
        momentum_on(scales.ring.along(axis), self.momentum.along(axis), scales)
    }

    // The squares along an axis.
    pub(crate) fn squares_along(&self, axis: Axis) -> i128
        ensures { result ≡ pos (component_along axis self.now.squares) }
    {
        self.squares.along(axis) as i128
    }

    // The least distance of an interacting pair in 10^-6 nm.
    pub(crate) fn nearest_distance(&self, scales: &Scales) -> Option<i128>
        ensures { result ≡ option_map (decimal_of 6) (nearest_distance scales.now self.now) }
    {
        match self.pairs.nearest_distance(scales.frac) {
            Some(r) => Some(distance(r, scales)),
            None => None,
        }
    }

    // The least distance of an interacting pair in 2^-bits nm.
    pub(crate) fn nearest_in_bits(&self, scales: &Scales) -> Option<i128>
        ensures { result ≡ nearest_in_bits scales.now self.now }
    {
        match self.pairs.nearest_distance(scales.frac) {
            Some(r) => Some(i128::from(r.raw())),
            None => None,
        }
    }
}
