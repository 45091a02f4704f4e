// Builds the variables of a program and numbers them as its inputs.
ghost use Rattle.std.specs.Prelude.{◌≡◌, ◌<◌, ◌++◌, ◌∷◌, [], length, codes, map, All, IfErr, IfOk, IfSome, IsSomeAnd, IsTrue, None, OnOk};
ghost use Rattle.line_text.specs.Identifiers.{is_identifier};
ghost use Rattle.energy_program.specs.Names.{first_repeated, input_of, names_from, parameters_and_globals};
ghost use Rattle.energy_program.specs.Faults.{Gives, RepeatedDefinition, IsFaultOrMemory};
ghost use Rattle.energy_program.specs.Tree.{variable_count};
ghost use Rattle.energy_program.specs.Variables.{added, filled, names_in, names_of};

use crate::faults::ExprFault;
use crate::names::{EnergyName, is_among, is_reserved};
use crate::variables::{MAX_GLOBALS, MAX_PARAMETERS, NameSet, Names};
use fallible::Failure;
use indexmap::IndexSet;
use std::alloc::Allocator;

// Rejects a list in which a name appears twice, with the first name that appears again later in the list.
fn refuse_repeated<A: Allocator + Copy>(
    alloc: A,
    names: &[&[u8]],
) -> Result<(), Failure<ExprFault<A>>>
    ensures once { OnOk result (first_repeated (map (λ n. n.now) names.now) ≡ None) }
    ensures refused { IfErr result (λ e. IsSomeAnd (first_repeated (map (λ n. n.now) names.now))
        (λ name. IsFaultOrMemory e (RepeatedDefinition name))) }
{
    match names {
        [] => Ok(()),
        [name, others @ ..] => {
            if is_among(others, name) {
                let name = EnergyName::copied(alloc, name)?;
                return Err(Failure::Refused(ExprFault::RepeatedDefinition { name }));
            }
            refuse_repeated(alloc, others)
        }
    }
}

// Adds a variable, or rejects its name with `ReservedName` if it is reserved or in the set.
fn add<A: Allocator + Copy>(
    alloc: A,
    names: &mut NameSet<A>,
    name: &[u8],
) -> Result<(), Failure<ExprFault<A>>>
    ensures { Gives (λ _. names_in names.new) result (added (names_in names.old) name.now) }
{
    if is_reserved(name) {
        let name = EnergyName::copied(alloc, name)?;
        return Err(Failure::Refused(ExprFault::ReservedName { name }));
    }
    let is_new = names.insert(Vec::from_slice(alloc, name)?)?;
    if is_new {
        return Ok(());
    }
    let name = EnergyName::copied(alloc, name)?;
    Err(Failure::Refused(ExprFault::ReservedName { name }))
}

// Adds variables, whose names are these beginnings with this end.
fn add_all<A: Allocator + Copy>(
    alloc: A,
    names: &mut NameSet<A>,
    beginnings: &[&[u8]],
    end: &[u8],
) -> Result<(), Failure<ExprFault<A>>>
    ensures { Gives (λ _. names_in names.new) result (filled (names_in names.old) (map (λ b. b.now ++ end.now) beginnings.now)) }
{
    for beginning in beginnings {
        let mut name = Vec::from_slice(alloc, beginning)?;
        name.extend_from_slice(end)?;
        add(alloc, names, &name)?;
    }
    Ok(())
}

// All variables in input order: the distance, the first particle's parameters, the second's, the globals.
fn all_variables<A: Allocator + Copy>(
    alloc: A,
    parameters: &[&[u8]],
    globals: &[&[u8]],
) -> Result<NameSet<A>, Failure<ExprFault<A>>>
    ensures { Gives names_in result (filled (codes "r" ∷ [])
        (parameters_and_globals (map (λ p. p.now) parameters.now) (map (λ g. g.now) globals.now))) }
{
    let mut names = IndexSet::new(alloc);
    names.insert(Vec::from_slice(alloc, b"r")?)?;
    add_all(alloc, &mut names, parameters, b"1")?;
    add_all(alloc, &mut names, parameters, b"2")?;
    add_all(alloc, &mut names, globals, b"")?;
    Ok(names)
}

impl<A: Allocator + Copy> Names<A> {
    /// The variables of a program with these parameters per particle and these globals. Names must be identifiers.
    ///
    /// Errors, in this order: `TooLarge` for more than 8 parameters or 16 globals; `RepeatedDefinition` for the first
    /// name that appears again in its own list, parameters before globals; `ReservedName` for the first variable whose
    /// name is reserved or an earlier variable's, parameters before globals. So a parameter `atan` is rejected because
    /// of its variable `atan2`. `Memory`: an allocation failed.
    pub fn new(
        alloc: A,
        parameters: &[&[u8]],
        globals: &[&[u8]],
    ) -> Result<Names<A>, Failure<ExprFault<A>>>
        requires parameters_named { All (λ p. IsTrue (is_identifier p.now)) parameters.now }
        requires globals_named { All (λ g. IsTrue (is_identifier g.now)) globals.now }
        ensures exact { Gives names_of result (names_from (map (λ p. p.now) parameters.now) (map (λ g. g.now) globals.now)) }
        ensures parameters { IfOk result (λ n. n.parameters ≡ length parameters.now) }
        ensures globals { IfOk result (λ n. n.globals ≡ length globals.now) }
    {
        if parameters.len() > MAX_PARAMETERS || globals.len() > MAX_GLOBALS {
            return Err(Failure::Refused(ExprFault::TooLarge));
        }
        refuse_repeated(alloc, parameters)?;
        refuse_repeated(alloc, globals)?;
        Ok(Names {
            variables: all_variables(alloc, parameters, globals)?,
            parameters: parameters.len() as u32,
            globals: globals.len() as u32,
        })
    }
}

impl<A: Allocator> Names<A> {
    /// The input number of the variable with this name, if there is one.
    pub fn input_of(&self, name: &[u8]) -> Option<u32>
        ensures value { result ≡ input_of (names_of self.now) name.now }
        ensures bound { IfSome result (λ input. input < variable_count self.now.parameters self.now.globals) }
    {
        match self.variables.get_index_of(name) {
            Some(input) => Some(input as u32),
            None => None,
        }
    }
}
