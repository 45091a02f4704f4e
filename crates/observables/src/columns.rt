//! The columns of the tables of `observe`, and the list of each table.

ghost use Rattle.std.specs.Prelude.{◌≡◌, ◌≤◌, ◌<◌, length};
ghost use Rattle.observables.specs.Columns.{columns_of, shown_in};

use crate::observations::Observation;
use crate::scales::Scales;
use ring_box::Axis;

/// The most columns of a table.
pub const MOST_COLUMNS: usize = 30;

/// A column of a table.
#[derive(Clone, Copy)]
pub enum Column {
    /// The step counter.
    Step,
    /// The time in ps.
    Time,
    /// The potential energy in kJ/mol.
    Potential,
    /// The kinetic energy in kJ/mol.
    Kinetic,
    /// The sum of potential and kinetic energy in kJ/mol.
    Total,
    /// The temperature in K; none for fewer than two atoms.
    Temperature,
    /// The pressure in bar.
    Pressure,
    /// The momentum along an axis in u nm/ps.
    Momentum(Axis),
    /// The least distance of an interacting pair in nm; none if no pair interacts.
    Nearest,
    /// The number of pairs nearer than the core.
    CorePairs,
    /// The component of the pressure tensor along two axes in bar.
    PressureAlong(Axis, Axis),
    /// The time in fs.
    TimeInFs,
    /// The potential energy in 2^-bits kJ/mol.
    PotentialInBits,
    /// The squares of an observation along an axis, in 10^-5 u times squared grid units.
    Squares(Axis),
    /// The virial along an axis in 2^-bits kJ/mol/nm times grid units.
    Virial(Axis),
    /// The momentum of an observation along an axis, in 10^-5 u times grid units.
    MomentumInPlaces(Axis),
    /// The least distance of an interacting pair in 2^-bits nm; none if no pair interacts.
    NearestInBits,
    /// The products of an observation along an axis, in 10^-5 u times squared grid units.
    Products(Axis),
    /// The virial with forces along the first axis and displacements along the second, in 2^-bits kJ/mol/nm times grid
    /// units.
    VirialAlong(Axis, Axis),
}

/// The notation of the columns of a table.
#[derive(Clone, Copy, PartialEq, Eq, Debug)]
pub enum Columns {
    /// Decimals, each the nearest to the exact value of its definition.
    Decimals,
    /// The decimals, and the components of the pressure tensor.
    DecimalsAndTensor,
    /// The integers from which the decimals follow.
    WholeNumbers,
    /// The integers from which the decimals and the components of the pressure tensor follow.
    WholeNumbersAndTensor,
}

impl Columns {
    /// The columns of a table, in the order in which they are printed.
    pub fn list(self) -> &'static [Column]
        ensures value { result.now ≡ columns_of self }
        ensures some { 0 < length result.now }
        ensures few { length result.now ≤ MOST_COLUMNS }
    {
        let all: &'static [Column] = match self {
            Columns::Decimals | Columns::DecimalsAndTensor => &[
                Column::Step,
                Column::Time,
                Column::Potential,
                Column::Kinetic,
                Column::Total,
                Column::Temperature,
                Column::Pressure,
                Column::Momentum(Axis::X),
                Column::Momentum(Axis::Y),
                Column::Momentum(Axis::Z),
                Column::Nearest,
                Column::CorePairs,
                Column::PressureAlong(Axis::X, Axis::X),
                Column::PressureAlong(Axis::Y, Axis::Y),
                Column::PressureAlong(Axis::Z, Axis::Z),
                Column::PressureAlong(Axis::X, Axis::Y),
                Column::PressureAlong(Axis::X, Axis::Z),
                Column::PressureAlong(Axis::Y, Axis::Z),
            ],
            Columns::WholeNumbers | Columns::WholeNumbersAndTensor => &[
                Column::Step,
                Column::TimeInFs,
                Column::PotentialInBits,
                Column::Squares(Axis::X),
                Column::Squares(Axis::Y),
                Column::Squares(Axis::Z),
                Column::Virial(Axis::X),
                Column::Virial(Axis::Y),
                Column::Virial(Axis::Z),
                Column::MomentumInPlaces(Axis::X),
                Column::MomentumInPlaces(Axis::Y),
                Column::MomentumInPlaces(Axis::Z),
                Column::NearestInBits,
                Column::CorePairs,
                Column::Products(Axis::Z),
                Column::Products(Axis::Y),
                Column::Products(Axis::X),
                Column::VirialAlong(Axis::X, Axis::Y),
                Column::VirialAlong(Axis::Y, Axis::X),
                Column::VirialAlong(Axis::X, Axis::Z),
                Column::VirialAlong(Axis::Z, Axis::X),
                Column::VirialAlong(Axis::Y, Axis::Z),
                Column::VirialAlong(Axis::Z, Axis::Y),
            ],
        };
        match self {
            Columns::Decimals => &all[..12],
            Columns::WholeNumbers => &all[..14],
            Columns::DecimalsAndTensor | Columns::WholeNumbersAndTensor => all,
        }
    }
}

impl Column {
    /// The head: a name, and a unit in the first column of each unit. At most 40 bytes.
    pub fn head(self) -> &'static [u8]
        ensures value { result.now ≡ (shown_in self).head }
        ensures short { length result.now ≤ 40 }
    {
        match self {
            Column::Step => b"step",
            Column::Time => b"time/ps",
            Column::Potential => b"potential/(kJ/mol)",
            Column::Kinetic => b"kinetic/(kJ/mol)",
            Column::Total => b"total/(kJ/mol)",
            Column::Temperature => b"temperature/K",
            Column::Pressure => b"pressure/bar",
            Column::Momentum(Axis::X) => b"momentum-x/(u.nm/ps)",
            Column::Momentum(Axis::Y) => b"momentum-y",
            Column::Momentum(Axis::Z) => b"momentum-z",
            Column::Nearest => b"nearest/nm",
            Column::CorePairs => b"core-pairs",
            Column::TimeInFs => b"time/fs",
            Column::PotentialInBits => b"potential/(2^-bits.kJ/mol)",
            Column::Squares(Axis::X) => b"squares-x/(1e-5.u.place^2)",
            Column::Squares(Axis::Y) => b"squares-y",
            Column::Squares(Axis::Z) => b"squares-z",
            Column::Virial(Axis::X) => b"virial-x/(2^-bits.kJ/mol/nm.place)",
            Column::Virial(Axis::Y) => b"virial-y",
            Column::Virial(Axis::Z) => b"virial-z",
            Column::MomentumInPlaces(Axis::X) => b"momentum-x/(1e-5.u.place)",
            Column::MomentumInPlaces(Axis::Y) => b"momentum-y",
            Column::MomentumInPlaces(Axis::Z) => b"momentum-z",
            Column::NearestInBits => b"nearest/(2^-bits.nm)",
            Column::PressureAlong(Axis::X, Axis::X) => b"pressure-xx/bar",
            Column::PressureAlong(Axis::X, Axis::Y) => b"pressure-xy",
            Column::PressureAlong(Axis::X, Axis::Z) => b"pressure-xz",
            Column::PressureAlong(Axis::Y, Axis::X) => b"pressure-yx",
            Column::PressureAlong(Axis::Y, Axis::Y) => b"pressure-yy",
            Column::PressureAlong(Axis::Y, Axis::Z) => b"pressure-yz",
            Column::PressureAlong(Axis::Z, Axis::X) => b"pressure-zx",
            Column::PressureAlong(Axis::Z, Axis::Y) => b"pressure-zy",
            Column::PressureAlong(Axis::Z, Axis::Z) => b"pressure-zz",
            Column::Products(Axis::X) => b"products-yz",
            Column::Products(Axis::Y) => b"products-xz",
            Column::Products(Axis::Z) => b"products-xy/(1e-5.u.place^2)",
            Column::VirialAlong(Axis::X, Axis::X) => b"virial-xx",
            Column::VirialAlong(Axis::X, Axis::Y) => b"virial-xy/(2^-bits.kJ/mol/nm.place)",
            Column::VirialAlong(Axis::X, Axis::Z) => b"virial-xz",
            Column::VirialAlong(Axis::Y, Axis::X) => b"virial-yx",
            Column::VirialAlong(Axis::Y, Axis::Y) => b"virial-yy",
            Column::VirialAlong(Axis::Y, Axis::Z) => b"virial-yz",
            Column::VirialAlong(Axis::Z, Axis::X) => b"virial-zx",
            Column::VirialAlong(Axis::Z, Axis::Y) => b"virial-zy",
            Column::VirialAlong(Axis::Z, Axis::Z) => b"virial-zz",
        }
    }

    /// The number of decimals, 0 for a column of integers. At most 6.
    pub fn decimals(self) -> usize
        ensures value { result ≡ (shown_in self).decimals }
        ensures few { result ≤ 6 }
    {
        match self {
            Column::Time | Column::Temperature => 3,
            Column::Pressure | Column::PressureAlong(_, _) => 3,
            Column::Potential | Column::Kinetic | Column::Total => 6,
            Column::Momentum(_) | Column::Nearest => 6,
            _ => 0,
        }
    }

    /// The number of an observation in units of the last decimal; `None` if there is none.
    pub fn number(self, observation: &Observation, scales: &Scales) -> Option<i128>
        ensures { result ≡ (shown_in self).number scales.now observation.now }
    {
        match self {
            Column::Step => Some(i128::from(observation.step)),
            Column::Time | Column::TimeInFs => Some(observation.time(scales)),
            Column::Potential => Some(observation.potential_energy(scales)),
            Column::Kinetic => Some(observation.kinetic_energy(scales)),
            Column::Total => Some(observation.total_energy(scales)),
            Column::Temperature => observation.temperature(scales),
            Column::Pressure => Some(observation.pressure(scales)),
            Column::Momentum(axis) => Some(observation.momentum_along(axis, scales)),
            Column::Nearest => observation.nearest_distance(scales),
            Column::CorePairs => Some(i128::from(observation.pairs.sums.core_pairs)),
            Column::PotentialInBits => Some(observation.pairs.energy),
            Column::Squares(axis) => Some(observation.squares_along(axis)),
            Column::Virial(axis) => Some(observation.pairs.sums.virial.along(axis).along(axis)),
            Column::MomentumInPlaces(axis) => Some(observation.momentum.along(axis)),
            Column::NearestInBits => observation.nearest_in_bits(scales),
            Column::PressureAlong(a, b) => Some(observation.pressure_along(a, b, scales)),
            Column::Products(axis) => Some(observation.products.along(axis)),
            Column::VirialAlong(a, b) => Some(observation.pairs.sums.virial.along(a).along(b)),
        }
    }
}
