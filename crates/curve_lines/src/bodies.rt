//! Bodies of tables: rows, errors without a bound, and the greatest bounds.
ghost use Rattle.std.specs.Prelude.{◌≡◌, ◌∷◌, [], ◌<◌, ◌-◌, ◌^◌, ◌++◌, List, IfOk, length};
ghost use Rattle.fixed.specs.Fractions.{bits_of};
ghost use Rattle.curve_lines.specs.Bodies.{HasRows, IsBodyText};

use crate::columns::CurveColumns;
use crate::rows::{Row, put_missing_lines, put_row};
use crate::summaries::{Summary, put_last};
use fixed::Frac;
use std::alloc::{AllocError, Allocator};
use std::marker::Model;

/// The body of a table, to which rows are added.
#[derive(Drop)]
pub struct Body<A: Allocator> {
    frac: Frac,
    columns: CurveColumns,
    lines: Vec<u8, A>,
    missing: Vec<u8, A>,
    energy: Summary,
    slope: Summary,
}

impl<A: Allocator> Model for Body<A> {
    ghost use Rattle.curve_lines.specs.Bodies as bodies;

    ghost Value = { bodies.BodyView };

    ghost view = { λ b. bodies.body_view b.frac b.columns b.lines.items b.missing.items b.energy b.slope };
}

impl<A: Allocator + Copy> Body<A> {
    /// A body without rows, for values with this number of fraction bits.
    pub fn new(alloc: A, frac: Frac, columns: CurveColumns) -> Body<A>
        ensures rows { HasRows result [] }
        ensures frac { result.frac ≡ frac }
        ensures columns { result.columns ≡ columns }
    {
        Body {
            frac,
            columns,
            lines: Vec::new(alloc),
            missing: Vec::new(alloc),
            energy: Summary::empty(),
            slope: Summary::empty(),
        }
    }

    /// Adds a row. The body has fewer than 2^32 - 1 rows. Returns `AllocError` if memory ran out.
    pub fn add(&mut self, row: &Row) -> Result<(), AllocError>
        requires { (rows : List Row) × HasRows self.old rows × (length rows < 2 ^ 32 - 1) }
        ensures rows { (rows : List Row) → HasRows self.old rows → IfOk result (λ _. HasRows self.new (rows ++ (row.now ∷ []))) }
        ensures frac { self.new.frac ≡ self.old.frac }
        ensures columns { self.new.columns ≡ self.old.columns }
    {
        self.energy = self.energy.with_row(row.distance, row.energy_error);
        self.slope = self.slope.with_row(row.distance, row.slope_error);
        put_missing_lines(&mut self.missing, self.frac, self.columns, row)?;
        put_row(&mut self.lines, self.frac, self.columns, row)
    }

    /// The text of the body, in the memory that holds the lines of the rows. Returns `AllocError` if memory ran out.
    pub fn into_text(self) -> Result<Vec<u8, A>, AllocError>
        ensures { (rows : List Row) → HasRows self rows → IfOk result (λ text.
            IsBodyText (bits_of self.frac) self.columns rows text.items) }
    {
        let Body {
            frac,
            columns,
            lines,
            missing,
            energy,
            slope,
        } = self;
        let mut text = lines;
        text.extend_from_slice(&missing)?;
        put_last(&mut text, frac, columns, energy, slope)?;
        Ok(text)
    }
}
