// Checks of definitions' names: a name may be neither reserved, nor a variable's, nor defined twice. A definition may
// have the bare name of a parameter, since only that name followed by 1 or 2 is a variable.
ghost use Rattle.std.specs.Prelude.{◌≡◌, ◌+◌, ◌<◌, ◌≤◌, [], IfSome, length, map};
ghost use Rattle.energy_program.specs.Faults.{Gives};
ghost use Rattle.energy_program.specs.Variables.{names_of};
ghost use Rattle.expr.specs.Definitions.{checked, is_taken, number_from};
ghost use Rattle.expr.specs.Syntax.{definition_of, defined_names};

use crate::sources::Definition;
use energy_program::{EnergyName, ExprFault, Names, is_reserved};
use fallible::Failure;
use std::alloc::Allocator;

/// The scope of an expression: the variables, and the later definitions, numbered from `first`.
#[derive(Drop)]
pub struct Scope<'a, 'b, 'c, A: Allocator> {
    pub names: &'a Names<A>,
    pub first: u32,
    pub later: &'b [Definition<'c, A>],
    pub ghost few: { first + length later.now ≤ 64 },
}

/// The number of the first of these definitions with the name, if they are numbered from `first`.
pub fn number_from<A: Allocator>(
    first: u32,
    definitions: &[Definition<A>],
    name: &[u8],
) -> Option<u32>
    requires { first + length definitions.now ≤ 64 }
    ensures value { result ≡ number_from first (defined_names (map definition_of definitions.now)) name.now }
    ensures low { IfSome result (λ number. first ≤ number) }
    ensures high { IfSome result (λ number. number < first + length definitions.now) }
{
    let mut number = first;
    for definition in definitions {
        if definition.name == name {
            return Some(number);
        }
        number += 1;
    }
    None
}

// Whether the name is reserved or a variable's, so that no definition may have it.
fn is_taken<A: Allocator>(names: &Names<A>, name: &[u8]) -> bool
    ensures { result ≡ is_taken (names_of names.now) name.now }
{
    is_reserved(name) || names.input_of(name).is_some()
}

/// Checks the definitions' names in order. Errors: `ReservedName` for a name that is reserved or a variable's, else
/// `RepeatedDefinition` for an earlier definition's; `Memory` if an allocation fails.
pub fn check_names<A: Allocator + Copy>(
    alloc: A,
    names: &Names<A>,
    definitions: &[Definition<A>],
) -> Result<(), Failure<ExprFault<A>>>
    requires { length definitions.now ≤ 64 }
    ensures { Gives (λ u. defined_names (map definition_of definitions.now)) result
        (checked (names_of names.now) [] (defined_names (map definition_of definitions.now))) }
{
    for number in 0..definitions.len() {
        let name = definitions[number].name;
        if is_taken(names, name) {
            let name = EnergyName::copied(alloc, name)?;
            return Err(Failure::Refused(ExprFault::ReservedName { name }));
        }
        if number_from(0, &definitions[..number], name).is_some() {
            let name = EnergyName::copied(alloc, name)?;
            return Err(Failure::Refused(ExprFault::RepeatedDefinition { name }));
        }
    }
    Ok(())
}
