//! The interval of each operation of energies and of code.
ghost use Rattle.std.specs.Prelude.{◌≡◌, IfOk, IfErr};
ghost use Rattle.fixed.specs.Fractions.{bits_of};
ghost use Rattle.fixed.specs.Operations.{operator_value, unary_value};
ghost use Rattle.interval_domain.specs.Ranges.{around_results, at_corners, divides, has_zero, operator_range, turn_of, unary_range};
ghost use Rattle.interval_domain.specs.Ranges as ranges;
ghost use Rattle.interval_domain.specs.Spans.{IsCause, IsLeastSpan, IsOutcome, IsOutcomeOfTwo};
ghost use Rattle.interval_domain.specs.Views.{result_range, span_range};

use crate::span::Span;
use fixed::{Fault, Frac, Fx, Operator, UnaryOperator, max, min};

// The least interval that contains four numbers.
fn around(p: Fx, q: Fx, r: Fx, s: Fx) -> Span
    ensures { span_range result ≡ ranges.around p q r s }
{
    Span {
        lo: min(min(p, q), min(r, s)),
        hi: max(max(p, q), max(r, s)),
    }
}

// The least interval that contains four results, or the first fault among them.
fn around_results(
    p: Result<Fx, Fault>,
    q: Result<Fx, Fault>,
    r: Result<Fx, Fault>,
    s: Result<Fx, Fault>,
) -> Result<Span, Fault>
    ensures { result_range result ≡ around_results p q r s }
{
    Ok(around(p?, q?, r?, s?))
}

// The least interval that contains the results at the four pairs of ends, or the first fault among them.
fn at_corners(frac: Frac, operator: Operator, a: Span, b: Span) -> Result<Span, Fault>
    ensures { result_range result ≡ at_corners (operator_value (bits_of frac) operator) (span_range a) (span_range b) }
{
    around_results(
        operator.checked(frac, a.lo, b.lo),
        operator.checked(frac, a.lo, b.hi),
        operator.checked(frac, a.hi, b.lo),
        operator.checked(frac, a.hi, b.hi),
    )
}

// Whether 0 is a member.
fn holds_zero(span: &Span) -> bool
    ensures { result ≡ has_zero (span_range span.now) }
{
    span.contains(Fx::from_raw(0))
}

// Whether the operator has no value if the second operand is 0.
fn divides(operator: Operator) -> bool
    ensures { result ≡ divides operator }
{
    match operator {
        Operator::Divide => true,
        _ => false,
    }
}

/// The smallest interval of an operator's values for `x` in `a` and `y` in `b`.
///
/// The fault of some of them, if one faults; `ZeroDivisor` if one has that fault.
pub fn operator_span(frac: Frac, operator: Operator, a: Span, b: Span) -> Result<Span, Fault>
    ensures range { result_range result ≡ operator_range (bits_of frac) operator (span_range a) (span_range b) }
    ensures span { IfOk result (IsLeastSpan (IsOutcomeOfTwo (operator_value (bits_of frac) operator) a b)) }
    ensures fault { IfErr result (IsCause (IsOutcomeOfTwo (operator_value (bits_of frac) operator) a b)) }
{
    if divides(operator) && holds_zero(&b) {
        Err(Fault::ZeroDivisor)
    } else {
        at_corners(frac, operator, a, b)
    }
}

// 0 if it is a member, else the least member.
fn turn_of(a: &Span) -> Fx
    ensures { result ≡ turn_of (span_range a.now) }
{
    if holds_zero(a) { Fx::from_raw(0) } else { a.lo }
}

/// The smallest interval of a unary operator's values on members of `a`.
///
/// The fault of some of them, if one faults; `NegativeRoot` if one has that fault.
pub fn unary_span(frac: Frac, operator: UnaryOperator, a: Span) -> Result<Span, Fault>
    ensures range { result_range result ≡ unary_range (bits_of frac) operator (span_range a) }
    ensures span { IfOk result (IsLeastSpan (IsOutcome (unary_value (bits_of frac) operator) a)) }
    ensures fault { IfErr result (IsCause (IsOutcome (unary_value (bits_of frac) operator) a)) }
{
    let turn = turn_of(&a);
    around_results(
        operator.checked(frac, a.lo),
        operator.checked(frac, turn),
        operator.checked(frac, turn),
        operator.checked(frac, a.hi),
    )
}
