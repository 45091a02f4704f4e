//! Which columns a table has.

ghost use Rattle.curve_lines.specs.Rows as rows;
ghost use Rattle.std.specs.Prelude.{◌≡◌};

/// The columns of a table of the potential, besides the distance.
#[derive(Clone, Copy)]
pub enum CurveColumns {
    /// The energy and its slope, each with its error.
    All {
        /// Whether the column of the grid follows.
        grid: bool,
    },
    /// The energy and its error.
    Energy,
    /// The slope and its error.
    Slope {
        /// Whether the column of the grid follows.
        grid: bool,
    },
}

impl CurveColumns {
    /// Whether the last column is the grid's: a bound on the part of the slope's error that no spelling of the formula
    /// avoids.
    pub fn has_grid(self) -> bool
        ensures { result ≡ rows.has_grid self }
    {
        match self {
            CurveColumns::All { grid } | CurveColumns::Slope { grid } => grid,
            CurveColumns::Energy => false,
        }
    }
}
