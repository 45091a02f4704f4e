//! The theorems on error bounds, and on the bound of the grid.

ghost use Rattle.std.specs.Prelude.{◌≡◌, ◌∷◌, ℕ, ℤ, List, Ok};
ghost use Rattle.energy_program.specs.Programs.{Trees};
ghost use Rattle.energy_program.specs.Tree.{substituted};
ghost use Rattle.derivative.specs.Derive.{slope_program, with_all};
ghost use Rattle.derivative.specs.DualNumbers.{IsDerivativeProgram, IsScoped};
ghost use Rattle.derivative.specs.Exact.{AreExact, Numbers, StandsForFraction};
ghost use Rattle.fixed.specs.Fractions.{bits_of};
ghost use Rattle.fixed.specs.declared.constants.Constant.{Constant};
ghost use Rattle.job.specs.Values.{JobValue};
ghost use Rattle.kernel_code.specs.Tables.{inputs_of};
ghost use Rattle.potential.specs.Tables.{numbers_of, table_of};
ghost use Rattle.error_bounds.specs.Approximations.{Approximation};
ghost use Rattle.error_bounds.specs.Ordered.{AreOrdered};
ghost use Rattle.interval_domain.specs.Ranges.{Range};
ghost use Rattle.curve_lines.specs.declared.rows.Row.{Row};
ghost use Rattle.curves.specs.declared.plans.CurvePlan.{CurvePlan};
ghost use Rattle.formula_bounds.specs.Entries.{entry_of_program};
ghost use Rattle.curves.specs.Grids.{BoundsSecond, grid_at};
ghost use Rattle.curves.specs.Slices.{AreBoundsOver, AreRight, AreRightOfDerivatives, BoundsView};
ghost use Rattle.curves.specs.Tables.{IsRow, bounds_in, distances_of, others_of};
ghost use Rattle.formula_bounds.specs.Written.{AreApproximated, HaveNumbers, IsRight, IsWrittenProgram, numerals_of_program, program_with_inputs};

/// Error bounds of a potential hold over all ordered exact numbers, such as the rational and the real numbers.
///
/// The exact formula has constants, parameters and globals that are any numbers within the errors of reading, among them
/// the decimals of the job's text, and a distance from the computed one to the next. A constant of a definition has the
/// same number wherever the definition is used. If there is a bound, the energy, or its slope, is computed without a
/// fault, and differs from the exact value, or from the exact derivative, by at most the bound, if there is one.
pub fn errors_are_bounded<V>()
    // The approximations of a program are right for its value and for its slope.
    ensures entry { (k : Numbers V) → AreOrdered k → (bits : ℕ) (inputs : List ℤ) (exacts : List V)
        → (approximations : List Approximation) → AreApproximated k bits approximations inputs exacts
        → (count : ℕ) (program : Trees) → IsScoped count program
        → IsRight k bits inputs exacts (entry_of_program bits approximations program) (substituted program.0 program.1) }
    // Bounds over a range of distances are right at each of them.
    ensures bounds { (k : Numbers V) → AreOrdered k → (bits count : ℕ) (program : Trees) → IsScoped count program
        → (others : List Constant) (r : Range) (b : BoundsView) → AreBoundsOver bits program others r b
        → AreRight k bits program others r b }
    // For any exact numbers that may have been read as the constants of a program there is such a written program: each
    // constant, of the body or of a definition, has one number.
    ensures written { (k : Numbers V) → (bits : ℕ) (exacts : List V) (n : ℕ) (program : Trees)
        → HaveNumbers k bits exacts n (numerals_of_program program)
        → IsWrittenProgram k bits exacts program (program_with_inputs n program) }
    // Bounds over a range of distances are unique.
    ensures exact { (bits : ℕ) (program : Trees) (others : List Constant) (r : Range) (b c : BoundsView)
        → AreBoundsOver bits program others r b → AreBoundsOver bits program others r c → b ≡ c }
    // The bound of a slope is one against the derivative, as dual numbers define it.
    ensures derivative { (k : Numbers V) → AreOrdered k → (bits : ℕ) (program : Trees) (others : List Constant)
        → (r : Range) (b : BoundsView) → AreRight k bits program others r b → AreRightOfDerivatives k bits program others r b }
    // The values of a row are computed on the numbers of the constants for which its bounds are.
    ensures inputs { (j : JobValue) (a b : ℕ) (r : ℤ) → inputs_of (table_of j) a b r ≡ r ∷ numbers_of (others_of j a b) }
    // The bounds of a row that `curve` prints are right for its pair of types, at each distance that the row covers.
    ensures rows { (k : Numbers V) → AreOrdered k → (j : JobValue) (program : Trees) (plan : CurvePlan) (inputs a b i : ℕ) (row : Row)
        → IsScoped inputs program → IsRow j program plan a b i row
        → AreRight k (bits_of j.frac) program (others_of j a b) (distances_of j plan.points i) (bounds_in row) }
{}

/// The column of the grid bounds the second derivative over all ordered exact numbers.
///
/// The formula's second derivative is the derivative, in dual numbers, of the program of its derivative. If it exists at
/// an exact distance that the program rounds down to the row's, its magnitude times 2^-bits is at most the column's bound,
/// if there is one. The exact formula is any that the bounds of errors are for; each input has an exact number.
pub fn grid_bounds_second_derivatives<V>()
    // The program of a formula's derivative, with all definitions, computes the derivative at each distance.
    ensures derivative { (k : Numbers V) → AreExact k → (bits : ℕ) → ((z : ℤ) → StandsForFraction k bits z)
        → (inputs : List V) (count : ℕ) (formula : Trees) → IsScoped count formula
        → IsDerivativeProgram k inputs formula (with_all bits formula) }
    // The change of a slope by the approximation of its derivative bounds the change by the exact second derivative.
    ensures second { (k : Numbers V) → AreOrdered k → (bits : ℕ) → ((z : ℤ) → StandsForFraction k bits z)
        → (count : ℕ) (program slope : Trees) → IsScoped count program → slope_program bits program ≡ Ok slope
        → (others : List Constant) (z : ℤ) → BoundsSecond k bits program others z (grid_at bits slope others z) }
    // So does the column of a row that `curve` prints.
    ensures rows { (k : Numbers V) → AreOrdered k → (j : JobValue) → ((z : ℤ) → StandsForFraction k (bits_of j.frac) z)
        → (program : Trees) (plan : CurvePlan) (inputs a b i : ℕ) (row : Row) → IsScoped inputs program → IsRow j program plan a b i row
        → BoundsSecond k (bits_of j.frac) program (others_of j a b) row.distance row.slope_grid }
{}
