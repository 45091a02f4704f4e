ghost use Rattle.std.specs.Prelude.{IsTrue};
ghost use Rattle.energy_program.specs.Tree.{is_exponent};

/// The exponent of a power: from -32 to 33, except 0. A text has none above 32; the derivative of a power may have 33.
#[derive(Clone, Copy)]
pub struct Exponent {
    pub value: i8,
    pub ghost in_range: { IsTrue (is_exponent value) },
}
