//! Laws of the pressure tensor, and of decimals.

ghost use Rattle.std.specs.Prelude.{◌≡◌, ℕ, pos, ◌*ℤ◌, ◌^◌, ◌<◌};
ghost use Rattle.fixed.specs.Rounding.{IsNearest};
ghost use Rattle.observables.specs.Ratios.{AreEqual, Ratio, decimal_of, plus, times};
ghost use Rattle.ring_box.specs.declared.vectors.Axis.{Axis};
ghost use Rattle.ring_box.specs.declared.vectors.Axis.TheVariants.{X, Y, Z};
ghost use Rattle.observables.specs.Observables.{pressure, pressure_tensor};
ghost use Rattle.observables.specs.declared.observations.Observation.{Observation};
ghost use Rattle.observables.specs.declared.scales.Scales.{Scales};

/// The pressure is a third of the trace of the pressure tensor.
pub fn pressure_is_third_of_trace()
    ensures { (s : Scales) (o : Observation) → AreEqual (times (pressure s o) 3)
        (plus (plus (pressure_tensor X X s o) (pressure_tensor Y Y s o)) (pressure_tensor Z Z s o)) }
{}

/// The pressure tensor is symmetric, though forces are rounded.
pub fn pressure_is_symmetric()
    ensures { (s : Scales) (o : Observation) (a b : Axis) → pressure_tensor a b s o ≡ pressure_tensor b a s o }
{}

/// The decimal of a fraction, in units of its last decimal, is the integer nearest to the fraction in these units; a
/// tie rounds up.
pub fn decimals_are_nearest()
    ensures { (decimals : ℕ) (x : Ratio) → 0 < x.denominator
        → IsNearest (x.numerator *ℤ pos (10 ^ decimals)) (pos x.denominator) (decimal_of decimals x) }
{}
