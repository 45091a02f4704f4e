//! Entries: the approximations of a tree's value and slope, computed from the entries of its parts.
ghost use Rattle.std.specs.Prelude.{◌≡◌, ◌≤◌, ◌+◌, pos, Some};
ghost use Rattle.fixed.specs.Fractions.{bits_of};
ghost use Rattle.derivative.specs.Slope as s;
ghost use Rattle.derivative.specs.Slope.{unless_constant};
ghost use Rattle.error_bounds.specs.Approximate.{approximate};
ghost use Rattle.formula_bounds.specs.Entries as e;
ghost use Rattle.formula_bounds.specs.Entries.{reciprocal_row};
ghost use Rattle.formula_bounds.specs.Walks as w;
ghost use Rattle.error_bounds.specs.Rules as rules;

use crate::partial::{Partial, apply, copied, operate, power, select};
use error_bounds::{Approximation, is_undecided};
use fixed::{Constant, FlatFunction, Frac, Function, Fx, Operator, UnaryOperator};
use std::marker::Model;

/// Whether a tree is free of the distance, and the approximations of its value and of its slope, if there are any.
#[derive(Drop)]
pub struct Entry {
    /// Whether the tree is free of the distance.
    pub free: bool,
    /// The approximation of the value.
    pub value: Partial,
    /// The approximation of the derivative with respect to the distance.
    pub slope: Partial,
}

impl Model for Entry {
    ghost use Rattle.formula_bounds.specs.Entries as e;

    ghost Value = { e.Entry };

    ghost view = { λ x. e.entry x.free x.value x.slope };
}

// The number n.
fn whole(frac: Frac, n: u16) -> Partial
    requires { n ≤ 256 }
    ensures { result ≡ (approximate (bits_of frac)).whole n }
{
    Some(Approximation::exactly(Fx::from_raw(i64::from(n) * frac.one())))
}

// The slope of a tree that is free of the distance.
fn no_slope() -> Partial
    ensures { result ≡ Some (rules.exactly (pos 0)) }
{
    Some(Approximation::exactly(Fx::from_raw(0)))
}

// A slope, which is 0 for a tree that is free of the distance.
fn unless_free(free: bool, slope: Partial) -> Partial
    ensures { result ≡ unless_constant (rules.exactly (pos 0)) free slope }
{
    if free { no_slope() } else { slope }
}

// The slope of a product.
fn product_slope(frac: Frac, x: &Entry, y: &Entry) -> Partial
    ensures { result ≡ s.product_row (approximate (bits_of frac)) x.now.free y.now.free x.now.value y.now.value x.now.slope y.now.slope }
{
    if x.free {
        return operate(frac, Operator::Multiply, &x.value, &y.slope);
    }
    let first = operate(frac, Operator::Multiply, &x.slope, &y.value);
    if y.free {
        first
    } else {
        operate(
            frac,
            Operator::Add,
            &first,
            &operate(frac, Operator::Multiply, &x.value, &y.slope),
        )
    }
}

// The slope of a quotient.
fn quotient_slope(frac: Frac, x: &Entry, y: &Entry) -> Partial
    ensures { result ≡ s.quotient_row (approximate (bits_of frac)) x.now.free y.now.free x.now.value y.now.value x.now.slope y.now.slope }
{
    if y.free {
        return operate(frac, Operator::Divide, &x.slope, &y.value);
    }
    let second = operate(frac, Operator::Multiply, &x.value, &y.slope);
    let numerator = if x.free {
        apply(frac, UnaryOperator::Negate, &second)
    } else {
        operate(
            frac,
            Operator::Subtract,
            &operate(frac, Operator::Multiply, &x.slope, &y.value),
            &second,
        )
    };
    operate(
        frac,
        Operator::Divide,
        &numerator,
        &apply(frac, UnaryOperator::Square, &y.value),
    )
}

// The step of a value: whether it isn't negative.
fn step_of(frac: Frac, x: &Partial) -> Partial
    ensures { result ≡ (approximate (bits_of frac)).step x.now }
{
    let step = UnaryOperator::Apply(Function::Flat(FlatFunction::Step));
    apply(frac, step, x)
}

// The slope of the minimum of `x` and `y`, by whether `y - x` is negative; and of the maximum of `y` and `x`.
fn lesser_slope(
    frac: Frac,
    x: &Partial,
    y: &Partial,
    chosen: &Partial,
    otherwise: &Partial,
) -> Partial
    ensures { result ≡ (approximate (bits_of frac)).selected
        ((approximate (bits_of frac)).step ((approximate (bits_of frac)).difference y.now x.now)) chosen.now otherwise.now }
{
    let step = step_of(frac, &operate(frac, Operator::Subtract, y, x));
    select(&step, chosen, otherwise)
}

// The slope of an operation, by the table of derivatives.
fn operation_slope(frac: Frac, operator: Operator, x: &Entry, y: &Entry) -> Partial
    ensures { result ≡ s.operation_row (approximate (bits_of frac)) operator x.now.free y.now.free x.now.value y.now.value
        x.now.slope y.now.slope }
{
    match operator {
        Operator::Add => operate(frac, Operator::Add, &x.slope, &y.slope),
        Operator::Subtract => operate(frac, Operator::Subtract, &x.slope, &y.slope),
        Operator::Multiply => product_slope(frac, x, y),
        Operator::Divide => quotient_slope(frac, x, y),
        Operator::Minimum => lesser_slope(frac, &x.value, &y.value, &x.slope, &y.slope),
        Operator::Maximum => lesser_slope(frac, &y.value, &x.value, &x.slope, &y.slope),
    }
}

// The slope of a function, by the table of derivatives.
fn function_slope(frac: Frac, function: Function, x: &Entry) -> Partial
    ensures { result ≡ s.applied_row (approximate (bits_of frac)) function x.now.value x.now.slope }
{
    match function {
        Function::SquareRoot => {
            let root = apply(frac, UnaryOperator::Apply(function), &x.value);
            operate(
                frac,
                Operator::Divide,
                &x.slope,
                &operate(frac, Operator::Multiply, &whole(frac, 2), &root),
            )
        }
        Function::Absolute => {
            let step = step_of(frac, &x.value);
            select(
                &step,
                &x.slope,
                &apply(frac, UnaryOperator::Negate, &x.slope),
            )
        }
        Function::Flat(_) => Some(Approximation::exactly(Fx::from_raw(0))),
    }
}

// The slope of a power from 0 on, by the power rule.
fn whole_power_slope(frac: Frac, x: &Entry, n: u16) -> Partial
    requires { n ≤ 256 }
    ensures { result ≡ s.power_row (approximate (bits_of frac)) x.now.value (pos n) x.now.slope }
{
    if n == 1 {
        return copied(&x.slope);
    }
    let lower = if n == 0 { 0 } else { n as i16 - 1 };
    let power = power(frac, &x.value, lower);
    operate(
        frac,
        Operator::Multiply,
        &operate(frac, Operator::Multiply, &whole(frac, n), &power),
        &x.slope,
    )
}

// The slope times `n`.
fn scaled_slope(frac: Frac, x: &Entry, n: u16) -> Partial
    requires { n ≤ 256 }
    ensures { result ≡ (approximate (bits_of frac)).product ((approximate (bits_of frac)).whole n) x.now.slope }
{
    operate(frac, Operator::Multiply, &whole(frac, n), &x.slope)
}

// The slope of one over the power `n`, by the power rule; `next` is `n + 1`.
fn reciprocal_slope(frac: Frac, x: &Entry, n: u16, next: i16) -> Partial
    requires small { n ≤ 256 }
    requires next { next ≡ pos (n + 1) }
    ensures { result ≡ reciprocal_row (approximate (bits_of frac)) x.now.value n x.now.slope }
{
    let power = power(frac, &x.value, next);
    let quotient = operate(frac, Operator::Divide, &scaled_slope(frac, x, n), &power);
    apply(frac, UnaryOperator::Negate, &quotient)
}

// The slope of a power, by the power rule.
fn power_slope(frac: Frac, x: &Entry, n: i8) -> Partial
    ensures { result ≡ s.power_row (approximate (bits_of frac)) x.now.value n x.now.slope }
{
    let magnitude = u16::from(n.unsigned_abs());
    if n >= 0 {
        whole_power_slope(frac, x, magnitude)
    } else {
        reciprocal_slope(frac, x, magnitude, 1 - i16::from(n))
    }
}

impl Entry {
    /// The entry of a definition that isn't there.
    pub(crate) fn missing() -> Entry
        ensures { result ≡ e.missing }
    {
        Entry {
            free: true,
            value: None,
            slope: None,
        }
    }

    /// A copy.
    pub(crate) fn copied(&self) -> Entry
        ensures { result ≡ self.now }
    {
        Entry {
            free: self.free,
            value: copied(&self.value),
            slope: copied(&self.slope),
        }
    }

    /// The entry of a constant.
    pub(crate) fn number(frac: Frac, constant: Constant) -> Entry
        ensures { result ≡ e.number (bits_of frac) constant }
    {
        Entry {
            free: true,
            value: Some(Approximation::as_read(constant)),
            slope: no_slope(),
        }
    }

    /// The entry of the input with this number, which has this approximation.
    pub(crate) fn input(frac: Frac, number: u32, approximation: Partial) -> Entry
        ensures { result ≡ e.input (bits_of frac) number approximation }
    {
        let slope = if number == 0 { frac.one() } else { 0 };
        Entry {
            free: number != 0,
            value: approximation,
            slope: Some(Approximation::exactly(Fx::from_raw(slope))),
        }
    }

    /// The entry of a negative.
    pub(crate) fn negated(frac: Frac, x: &Entry) -> Entry
        ensures { result ≡ e.negated (bits_of frac) x.now }
    {
        Entry {
            free: x.free,
            value: apply(frac, UnaryOperator::Negate, &x.value),
            slope: unless_free(x.free, apply(frac, UnaryOperator::Negate, &x.slope)),
        }
    }

    /// The entry of an operation.
    pub(crate) fn binary(frac: Frac, operator: Operator, x: &Entry, y: &Entry) -> Entry
        ensures { result ≡ e.binary (bits_of frac) operator x.now y.now }
    {
        let free = x.free && y.free;
        Entry {
            free,
            value: operate(frac, operator, &x.value, &y.value),
            slope: if free {
                no_slope()
            } else {
                operation_slope(frac, operator, x, y)
            },
        }
    }

    /// The entry of a function.
    pub(crate) fn applied(frac: Frac, function: Function, x: &Entry) -> Entry
        ensures { result ≡ e.applied (bits_of frac) function x.now }
    {
        Entry {
            free: x.free,
            value: apply(frac, UnaryOperator::Apply(function), &x.value),
            slope: if x.free {
                no_slope()
            } else {
                function_slope(frac, function, x)
            },
        }
    }

    /// The entry of a power.
    pub(crate) fn power(frac: Frac, x: &Entry, n: i8) -> Entry
        ensures { result ≡ e.power (bits_of frac) x.now n }
    {
        Entry {
            free: x.free,
            value: power(frac, &x.value, i16::from(n)),
            slope: if x.free {
                no_slope()
            } else {
                power_slope(frac, x, n)
            },
        }
    }

    /// The entry of a choice: of `y` if `x` isn't 0, else of `z`.
    pub(crate) fn select(frac: Frac, x: &Entry, y: &Entry, z: &Entry) -> Entry
        ensures { result ≡ e.select (bits_of frac) x.now y.now z.now }
    {
        let free = x.free && y.free && z.free;
        Entry {
            free,
            value: select(&x.value, &y.value, &z.value),
            slope: unless_free(free, select(&x.value, &y.slope, &z.slope)),
        }
    }
}

// The condition of a minimum or a maximum; other operations have none.
fn condition_of_two(frac: Frac, operator: Operator, x: &Entry, y: &Entry) -> Partial
    ensures { result ≡ w.condition_of_two (bits_of frac) operator x.now y.now }
{
    match operator {
        Operator::Minimum => step_of(frac, &operate(frac, Operator::Subtract, &y.value, &x.value)),
        Operator::Maximum => step_of(frac, &operate(frac, Operator::Subtract, &x.value, &y.value)),
        Operator::Add | Operator::Subtract | Operator::Multiply | Operator::Divide => None,
    }
}

// The condition of an absolute value that has an approximation; other functions have none.
fn condition_of_one(frac: Frac, function: Function, x: &Entry) -> Partial
    ensures { result ≡ w.condition_of_one (bits_of frac) function x.now }
{
    match function {
        Function::Absolute => match apply(frac, UnaryOperator::Apply(function), &x.value) {
            Some(_) => step_of(frac, &x.value),
            None => None,
        },
        Function::SquareRoot | Function::Flat(_) => None,
    }
}

// Whether a condition has an approximation, but decides nothing.
fn is_open(condition: &Partial) -> bool
    ensures { result ≡ w.is_open condition.now }
{
    match condition {
        Some(condition) => is_undecided(condition),
        None => false,
    }
}

// A branch that is taken: it counts as depending on the distance, as the choice does.
fn taken(x: &Entry) -> Entry
    ensures { result ≡ w.taken x.now }
{
    Entry {
        free: false,
        value: copied(&x.value),
        slope: copied(&x.slope),
    }
}

// Both branches of a choice that depends on the distance and is open.
fn branches_if_open(
    free: bool,
    condition: &Partial,
    first: &Entry,
    second: &Entry,
) -> Option<(Entry, Entry)>
    ensures { result ≡ w.branches_if_open free condition.now first.now second.now }
{
    if free || !is_open(condition) {
        None
    } else {
        Some((taken(first), taken(second)))
    }
}

/// The branches of an operation, if it is an open choice.
pub(crate) fn branches_of_two(
    frac: Frac,
    operator: Operator,
    x: &Entry,
    y: &Entry,
) -> Option<(Entry, Entry)>
    ensures { result ≡ w.branches_of_two (bits_of frac) operator x.now y.now }
{
    let condition = condition_of_two(frac, operator, x, y);
    branches_if_open(x.free && y.free, &condition, x, y)
}

/// The branches of a function, if it is an open choice.
pub(crate) fn branches_of_one(frac: Frac, function: Function, x: &Entry) -> Option<(Entry, Entry)>
    ensures { result ≡ w.branches_of_one (bits_of frac) function x.now }
{
    let condition = condition_of_one(frac, function, x);
    branches_if_open(x.free, &condition, x, &Entry::negated(frac, x))
}

/// The branches of a select, if it is an open choice.
pub(crate) fn branches_of_select(x: &Entry, y: &Entry, z: &Entry) -> Option<(Entry, Entry)>
    ensures { result ≡ w.branches_of_select x.now y.now z.now }
{
    branches_if_open(x.free && y.free && z.free, &x.value, y, z)
}
