//! The ranges of the results of operations. The operands at a single distance are numbers, which have one result.
ghost use Rattle.std.specs.Prelude.{◌≡◌, IsTrue};
ghost use Rattle.fixed.specs.Fractions.{bits_of};
ghost use Rattle.fixed.specs.Operations.{operator_value, unary_value};
ghost use Rattle.interval_domain.specs.Ranges.{operator_range, unary_range};
ghost use Rattle.interval_domain.specs.Views.{result_range, span_range};

use fixed::{Fault, Frac, Operator, UnaryOperator};
use interval_domain::{Span, operator_span, unary_span};

// Whether an interval has one member.
fn is_single(x: Span) -> bool
    ensures { IsTrue result → x.lo ≡ x.hi }
{
    x.lo.raw() == x.hi.raw()
}

/// The range of an operator's results, or the fault of one of them.
pub(crate) fn operator_results(
    frac: Frac,
    operator: Operator,
    x: Span,
    y: Span,
) -> Result<Span, Fault>
    ensures { result_range result ≡ operator_range (bits_of frac) operator (span_range x) (span_range y) }
{
    if is_single(x) && is_single(y) {
        Ok(Span::single(operator.checked(frac, x.lo, y.lo)?))
    } else {
        operator_span(frac, operator, x, y)
    }
}

/// The range of a unary operator's results, or the fault of one of them.
pub(crate) fn unary_results(frac: Frac, operator: UnaryOperator, x: Span) -> Result<Span, Fault>
    ensures { result_range result ≡ unary_range (bits_of frac) operator (span_range x) }
{
    if is_single(x) {
        Ok(Span::single(operator.checked(frac, x.lo)?))
    } else {
        unary_span(frac, operator, x)
    }
}
