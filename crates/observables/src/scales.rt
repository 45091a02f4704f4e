//! Units of the integers in an observation, and the denominators of its observables.

ghost use Rattle.std.specs.Prelude.{◌≤◌};

use fixed::Frac;
use job::TimeStep;
use ring_box::{Axis, RingBox};

/// The units of an observation's integers, constant during a run.
#[derive(Clone, Copy)]
pub struct Scales {
    /// The fraction bits of energies, forces and distances.
    pub frac: Frac,
    /// The time step in fs.
    pub time_step: TimeStep,
    /// The periodic box, with 2^32 grid coordinates along each side.
    pub ring: RingBox,
    /// The number of atoms, at most 65,536.
    pub atoms: u32,
    pub ghost most_atoms: { atoms ≤ 65536 },
}

impl Scales {
    ghost use Rattle.std.specs.Prelude.{◌≡◌, ◌<◌, ◌≤◌, ◌*◌, ◌^◌};
    ghost use Rattle.fixed.specs.Fractions.{bits_of};
    ghost use Rattle.observables.specs.Products.{product_of};
    ghost use Rattle.ring_box.specs.Axes.{side_along};
    ghost use Rattle.observables.specs.Bounds.{IsBetween};
    ghost use Rattle.observables.specs.Observables.{boltzmann, degrees_of_freedom, kinetic_unit, momentum_unit, virial_unit, volume};

    /// The number 1 in units of the last fraction bit.
    pub(crate) fn one(&self) -> u64
        ensures value { result ≡ 2 ^ bits_of self.now.frac }
        ensures least { 2 ^ 24 ≤ result }
        ensures most { result ≤ 2 ^ 40 }
    {
        match self.frac {
            Frac::F24 => 16_777_216,
            Frac::F32 => 4_294_967_296,
            Frac::F40 => 1_099_511_627_776,
        }
    }

    /// The side along an axis in 10^-5 nm.
    pub(crate) fn side(&self, axis: Axis) -> u64
        ensures value { result ≡ side_along axis self.now.ring }
        ensures most { result ≤ 16000000 }
        ensures by_volume { result ≤ volume self.now.ring }
    {
        let x = u64::from(self.ring.x.get());
        let y = u64::from(self.ring.y.get());
        let z = u64::from(self.ring.z.get());
        match axis {
            Axis::X => x,
            Axis::Y => y,
            Axis::Z => z,
        }
    }

    /// The factors of the denominator of a kinetic energy. `nearest` divides by one factor after the other, as
    /// the products don't always fit 128 bits.
    pub(crate) fn kinetic_divisors(&self) -> [u64; 5]
        ensures value { product_of result ≡ kinetic_unit self.now.time_step }
        ensures unit { IsBetween (2 ^ 95) (2 ^ 117) (kinetic_unit self.now.time_step) }
    {
        let dt = u64::from(self.time_step.femtoseconds());
        [4_000_000_000, 4_294_967_296, 4_294_967_296, dt, dt]
    }

    /// The factors of the denominator of a total energy.
    pub(crate) fn total_divisors(&self) -> [u64; 6]
        ensures value { product_of result ≡ 2 ^ bits_of self.now.frac * kinetic_unit self.now.time_step }
    {
        let dt = u64::from(self.time_step.femtoseconds());
        [
            self.one(),
            4_000_000_000,
            4_294_967_296,
            4_294_967_296,
            dt,
            dt,
        ]
    }

    /// The factors of the denominator of a temperature. There must be at least two atoms.
    pub(crate) fn temperature_divisors(&self) -> [u64; 7]
        requires { 2 ≤ self.now.atoms }
        ensures value { product_of result ≡ kinetic_unit self.now.time_step * (degrees_of_freedom self.now.atoms * boltzmann) }
        ensures unit { IsBetween (2 ^ 95) (2 ^ 117) (kinetic_unit self.now.time_step) }
        ensures degrees { IsBetween (2 ^ 51) (2 ^ 69) (degrees_of_freedom self.now.atoms * boltzmann) }
    {
        let dt = u64::from(self.time_step.femtoseconds());
        let degrees = 3 * u64::from(self.atoms) - 3;
        [
            4_000_000_000,
            4_294_967_296,
            4_294_967_296,
            dt,
            dt,
            degrees,
            831_446_261_815_324,
        ]
    }

    /// The factors of the denominator of a sum of `orders` virials, which are 1 or 2.
    pub(crate) fn virial_divisors(&self, orders: u64) -> [u64; 4]
        requires { IsBetween 1 3 orders }
        ensures value { product_of result ≡ virial_unit self.now * orders }
        ensures unit { IsBetween (2 ^ 72) (2 ^ 90) (virial_unit self.now * orders) }
    {
        [100_000, 4_294_967_296, self.one(), orders]
    }

    /// The factors of the denominator of a pressure, from a sum of `orders` virials, by `volumes` volumes.
    pub(crate) fn pressure_divisors(&self, orders: u64, volumes: u64) -> [u64; 14]
        ensures value { product_of result
            ≡ kinetic_unit self.now.time_step * (virial_unit self.now * orders) * (volumes * volume self.now.ring * 602214076) }
        ensures volume { IsBetween 1 (2 ^ 72) (volume self.now.ring) }
    {
        let dt = u64::from(self.time_step.femtoseconds());
        let x = u64::from(self.ring.x.get());
        let y = u64::from(self.ring.y.get());
        let z = u64::from(self.ring.z.get());
        [
            4_000_000_000,
            4_294_967_296,
            4_294_967_296,
            dt,
            dt,
            100_000,
            4_294_967_296,
            self.one(),
            orders,
            volumes,
            x,
            y,
            z,
            602_214_076,
        ]
    }

    /// The factors of the denominator of a momentum.
    pub(crate) fn momentum_divisors(&self) -> [u64; 3]
        ensures value { product_of result ≡ momentum_unit self.now.time_step }
        ensures unit { IsBetween (2 ^ 55) (2 ^ 66) (momentum_unit self.now.time_step) }
    {
        [
            10_000_000,
            4_294_967_296,
            u64::from(self.time_step.femtoseconds()),
        ]
    }
}
