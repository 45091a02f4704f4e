//! What the text of a potential has: rows, columns and pairs of types.
ghost use Rattle.std.specs.Prelude.{◌≤◌};

use curve_lines::CurveColumns;

/// What `write_curve` writes of a job's potential.
#[derive(Clone, Copy)]
pub struct CurvePlan {
    /// The number n of rows after the first, from 1 to 1,000,000.
    pub points: u32,
    /// The columns of each table.
    pub columns: CurveColumns,
    /// The numbers of two types, from 0, whose table is the only one; without them, all pairs have a table.
    pub pair: Option<(u32, u32)>,
    ghost some: { 1 ≤ points },
    ghost few: { points ≤ 1000000 },
}
