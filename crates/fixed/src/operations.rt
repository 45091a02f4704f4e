//! The operations of energies and of code, with the words that name them.
ghost use Rattle.std.specs.Prelude.{◌≡◌, ◌≤◌, length, IsOk, Ok};
ghost use Rattle.fixed.specs.Fractions.{bits_of};
ghost use Rattle.fixed.specs.Operations.{flat_of_word, flat_value, flat_word, function_of_word, function_value, function_word, operator_of_word, operator_value, operator_word, unary_of_word, unary_value, unary_word};

use crate::checked::{
    checked_abs, checked_add, checked_div, checked_mul, checked_neg, checked_sq, checked_sqrt,
    checked_sub,
};
use crate::faults::Fault;
use crate::frac::Frac;
use crate::number::Fx;
use crate::order::{max, min, step};
use crate::plain::{abs, add, div, mul, neg, sq, sqrt, sub};
use crate::whole::{ceil, checked_ceil, delta, floor};

/// An operation on two numbers, `a` and `b`.
#[derive(Clone, Copy, PartialEq, Eq)]
pub enum Operator {
    /// `a + b`.
    Add,
    /// `a - b`.
    Subtract,
    /// `a b`, rounded down (towards minus infinity).
    Multiply,
    /// `a / b`, rounded down (towards minus infinity).
    Divide,
    /// The smaller of the two.
    Minimum,
    /// The greater of the two.
    Maximum,
}

/// A function of one number that is constant except where it jumps. So its derivative is 0.
#[derive(Clone, Copy, PartialEq, Eq)]
pub enum FlatFunction {
    /// 0 for a negative number, else one.
    Step,
    /// One for 0, else 0.
    Delta,
    /// The greatest multiple of one that is at most the number.
    Floor,
    /// The least multiple of one that is at least the number.
    Ceiling,
}

/// A function of one number, in energies and in code.
#[derive(Clone, Copy, PartialEq, Eq)]
pub enum Function {
    /// The square root, rounded down.
    SquareRoot,
    /// The absolute value.
    Absolute,
    /// A function that is constant except where it jumps.
    Flat(FlatFunction),
}

/// An operation on one number, in code.
#[derive(Clone, Copy, PartialEq, Eq)]
pub enum UnaryOperator {
    /// The negative.
    Negate,
    /// The square, rounded down.
    Square,
    /// A function's value.
    Apply(Function),
}

impl Operator {
    /// The value for `a` and `b`, or its fault.
    pub fn checked(self, frac: Frac, a: Fx, b: Fx) -> Result<Fx, Fault>
        ensures { result ≡ operator_value (bits_of frac) self a b }
    {
        match self {
            Operator::Add => checked_add(a, b),
            Operator::Subtract => checked_sub(a, b),
            Operator::Multiply => checked_mul(frac, a, b),
            Operator::Divide => checked_div(frac, a, b),
            Operator::Minimum => Ok(min(a, b)),
            Operator::Maximum => Ok(max(a, b)),
        }
    }

    /// The value for `a` and `b`, which must exist, without run-time tests.
    #[inline(always)]
    pub fn value(self, frac: Frac, a: Fx, b: Fx) -> Fx
        requires { IsOk (operator_value (bits_of frac) self a b) }
        ensures { operator_value (bits_of frac) self a b ≡ Ok result }
    {
        match self {
            Operator::Add => add(a, b),
            Operator::Subtract => sub(a, b),
            Operator::Multiply => mul(frac, a, b),
            Operator::Divide => div(frac, a, b),
            Operator::Minimum => min(a, b),
            Operator::Maximum => max(a, b),
        }
    }

    /// The word that names the operator in code. It has at most 5 bytes.
    pub fn word(self) -> &'static [u8]
        ensures value { result.now ≡ operator_word self }
        ensures short { length result.now ≤ 5 }
    {
        match self {
            Operator::Add => b"add",
            Operator::Subtract => b"sub",
            Operator::Multiply => b"mul",
            Operator::Divide => b"div",
            Operator::Minimum => b"min",
            Operator::Maximum => b"max",
        }
    }

    /// The operator with this word, if there is one.
    #[tactic(auto, unfolding(crate::specs::Operations::operator_of_word))]
    pub fn of_word(word: &[u8]) -> Option<Operator>
        ensures { result ≡ operator_of_word word.now }
    {
        match word {
            b"add" => Some(Operator::Add),
            b"sub" => Some(Operator::Subtract),
            b"mul" => Some(Operator::Multiply),
            b"div" => Some(Operator::Divide),
            b"min" => Some(Operator::Minimum),
            b"max" => Some(Operator::Maximum),
            _ => None,
        }
    }
}

impl FlatFunction {
    /// The value for `a`, or its fault.
    pub fn checked(self, frac: Frac, a: Fx) -> Result<Fx, Fault>
        ensures { result ≡ flat_value (bits_of frac) self a }
    {
        match self {
            FlatFunction::Step => Ok(step(frac, a)),
            FlatFunction::Delta => Ok(delta(frac, a)),
            FlatFunction::Floor => Ok(floor(frac, a)),
            FlatFunction::Ceiling => checked_ceil(frac, a),
        }
    }

    /// The value for `a`, which must exist, without run-time tests.
    #[inline(always)]
    pub fn value(self, frac: Frac, a: Fx) -> Fx
        requires { IsOk (flat_value (bits_of frac) self a) }
        ensures { flat_value (bits_of frac) self a ≡ Ok result }
    {
        match self {
            FlatFunction::Step => step(frac, a),
            FlatFunction::Delta => delta(frac, a),
            FlatFunction::Floor => floor(frac, a),
            FlatFunction::Ceiling => ceil(frac, a),
        }
    }

    /// The word that names the function in energies and in code. It has at most 5 bytes.
    pub fn word(self) -> &'static [u8]
        ensures value { result.now ≡ flat_word self }
        ensures short { length result.now ≤ 5 }
    {
        match self {
            FlatFunction::Step => b"step",
            FlatFunction::Delta => b"delta",
            FlatFunction::Floor => b"floor",
            FlatFunction::Ceiling => b"ceil",
        }
    }

    /// The function with this word, if there is one.
    #[tactic(auto, unfolding(crate::specs::Operations::flat_of_word))]
    pub fn of_word(word: &[u8]) -> Option<FlatFunction>
        ensures { result ≡ flat_of_word word.now }
    {
        match word {
            b"step" => Some(FlatFunction::Step),
            b"delta" => Some(FlatFunction::Delta),
            b"floor" => Some(FlatFunction::Floor),
            b"ceil" => Some(FlatFunction::Ceiling),
            _ => None,
        }
    }
}

impl Function {
    /// The value for `a`, or its fault.
    pub fn checked(self, frac: Frac, a: Fx) -> Result<Fx, Fault>
        ensures { result ≡ function_value (bits_of frac) self a }
    {
        match self {
            Function::SquareRoot => checked_sqrt(frac, a),
            Function::Absolute => checked_abs(a),
            Function::Flat(function) => function.checked(frac, a),
        }
    }

    /// The value for `a`, which must exist, without run-time tests.
    #[inline(always)]
    pub fn value(self, frac: Frac, a: Fx) -> Fx
        requires { IsOk (function_value (bits_of frac) self a) }
        ensures { function_value (bits_of frac) self a ≡ Ok result }
    {
        match self {
            Function::SquareRoot => sqrt(frac, a),
            Function::Absolute => abs(a),
            Function::Flat(function) => function.value(frac, a),
        }
    }

    /// The word that names the function in energies and in code. It has at most 5 bytes.
    pub fn word(self) -> &'static [u8]
        ensures value { result.now ≡ function_word self }
        ensures short { length result.now ≤ 5 }
    {
        match self {
            Function::SquareRoot => b"sqrt",
            Function::Absolute => b"abs",
            Function::Flat(function) => function.word(),
        }
    }

    /// The function with this word, if there is one.
    #[tactic(auto, unfolding(crate::specs::Operations::function_of_word))]
    pub fn of_word(word: &[u8]) -> Option<Function>
        ensures { result ≡ function_of_word word.now }
    {
        match word {
            b"sqrt" => Some(Function::SquareRoot),
            b"abs" => Some(Function::Absolute),
            _ => Some(Function::Flat(FlatFunction::of_word(word)?)),
        }
    }
}

impl UnaryOperator {
    /// The value for `a`, or its fault.
    pub fn checked(self, frac: Frac, a: Fx) -> Result<Fx, Fault>
        ensures { result ≡ unary_value (bits_of frac) self a }
    {
        match self {
            UnaryOperator::Negate => checked_neg(a),
            UnaryOperator::Square => checked_sq(frac, a),
            UnaryOperator::Apply(function) => function.checked(frac, a),
        }
    }

    /// The value for `a`, which must exist, without run-time tests.
    #[inline(always)]
    pub fn value(self, frac: Frac, a: Fx) -> Fx
        requires { IsOk (unary_value (bits_of frac) self a) }
        ensures { unary_value (bits_of frac) self a ≡ Ok result }
    {
        match self {
            UnaryOperator::Negate => neg(a),
            UnaryOperator::Square => sq(frac, a),
            UnaryOperator::Apply(function) => function.value(frac, a),
        }
    }

    /// The word that names the operator in code. It has at most 5 bytes.
    pub fn word(self) -> &'static [u8]
        ensures value { result.now ≡ unary_word self }
        ensures short { length result.now ≤ 5 }
    {
        match self {
            UnaryOperator::Negate => b"neg",
            UnaryOperator::Square => b"sq",
            UnaryOperator::Apply(function) => function.word(),
        }
    }

    /// The operator with this word, if there is one.
    #[tactic(auto, unfolding(crate::specs::Operations::unary_of_word))]
    pub fn of_word(word: &[u8]) -> Option<UnaryOperator>
        ensures { result ≡ unary_of_word word.now }
    {
        match word {
            b"neg" => Some(UnaryOperator::Negate),
            b"sq" => Some(UnaryOperator::Square),
            _ => Some(UnaryOperator::Apply(Function::of_word(word)?)),
        }
    }
}
