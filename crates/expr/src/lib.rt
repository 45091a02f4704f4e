//! The parser of energy texts: lexer, recursive-descent parser and name resolution. `parse` returns the program of a
//! text, or the first error in it.
#![tactic(auto)]

mod calls;
mod definitions;
mod energy;
mod exponents;
mod laws;
mod lexer;
mod parser;
mod parts;
mod sources;
mod syntax;
mod tokens;
mod uses;

pub use energy::parse;
pub use laws::reads_energy_texts;
