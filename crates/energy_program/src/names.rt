ghost use Rattle.std.specs.Prelude.{◌≡◌, IfOk};
ghost use Rattle.std.specs.List.{list_any};
ghost use Rattle.std.specs.Str.{bytes_eq};
ghost use Rattle.energy_program.specs.Names.{is_left_out, is_reserved};

use crate::callees::function_of;
use std::alloc::{AllocError, Allocator};
use std::fmt::{self, Display, Formatter, Write};

/// A name in an energy text, as a copy of the text's bytes: letters, digits and `_`.
#[derive(Drop)]
pub struct EnergyName<A: Allocator> {
    /// The bytes of the name, at least one.
    pub bytes: Vec<u8, A>,
}

impl<A: Allocator + Copy> EnergyName<A> {
    /// A copy of the name, for a fault to own.
    pub fn copied(alloc: A, name: &[u8]) -> Result<EnergyName<A>, AllocError>
        ensures { IfOk result (λ copy. copy.bytes.items ≡ name.now) }
    {
        Ok(EnergyName {
            bytes: Vec::from_slice(alloc, name)?,
        })
    }
}

impl<A: Allocator> Display for EnergyName<A> {
    fn fmt<W: Write>(&self, f: &mut Formatter<W>) -> fmt::Result {
        for byte in &self.bytes {
            f.write_char(char::from(*byte))?;
        }
        Ok(())
    }
}

// The functions of OpenMM's custom force expressions that the language leaves out.
const LEFT_OUT: [&[u8]; 17] = [
    b"exp", b"log", b"sin", b"cos", b"sec", b"csc", b"tan", b"cot", b"asin", b"acos", b"atan",
    b"atan2", b"sinh", b"cosh", b"tanh", b"erf", b"erfc",
];

// Whether the name is in the list.
pub(crate) fn is_among(names: &[&[u8]], name: &[u8]) -> bool
    ensures { result ≡ list_any (λ n. bytes_eq name.now n.now) names.now }
{
    names.iter().any(|other| name == *other)
}

#[tactic(auto, unfolding(crate::specs::Names::is_left_out))]
pub(crate) fn is_left_out(name: &[u8]) -> bool
    ensures { result ≡ is_left_out name.now }
{
    is_among(&LEFT_OUT, name)
}

/// Whether the name is reserved: it is `r`, a function of the language, or a function that the language leaves out. No
/// definition, and no variable except the distance, may have a reserved name.
#[tactic(auto, unfolding(crate::specs::Names::is_reserved))]
pub fn is_reserved(name: &[u8]) -> bool
    ensures { result ≡ is_reserved name.now }
{
    name == b"r".as_slice() || function_of(name).is_some() || is_left_out(name)
}
