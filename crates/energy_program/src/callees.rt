// The functions of the language.
ghost use Rattle.std.specs.Prelude.{◌≡◌};
ghost use Rattle.energy_program.specs.Names.{function_of};

use fixed::{Function, Operator};

/// A function, classified by the number of its arguments.
#[derive(Clone, Copy)]
pub enum Callee {
    /// A function of one argument.
    One(Function),
    /// `min` or `max`.
    Two(Operator),
    /// `select`.
    Three,
}

/// The function with the name, if there is one.
#[tactic(auto, unfolding(crate::specs::Names::function_of))]
pub fn function_of(name: &[u8]) -> Option<Callee>
    ensures { result ≡ function_of name.now }
{
    match Function::of_word(name) {
        Some(function) => Some(Callee::One(function)),
        None => match name {
            b"min" => Some(Callee::Two(Operator::Minimum)),
            b"max" => Some(Callee::Two(Operator::Maximum)),
            b"select" => Some(Callee::Three),
            _ => None,
        },
    }
}
