//! Reading a job line by line: each line is added to the draft of the lines above it, or rejected. The draft is
//! borrowed, so the functions here drop no values on their many error paths. The prover would have to follow each
//! drop.

ghost use Rattle.std.specs.Prelude.{◌≡◌, Some, ◌≤◌, ◌≤ℤ◌, pos, true, option_map, IfOk, IsAscii, string_bytes, bytes_eq, ok_or};
ghost use Rattle.std.specs.List.{list_any};
ghost use Rattle.fallible.specs.Failures.{Answers, Gives, IfRefused};
ghost use Rattle.line_text.specs.Names.{name_text};
ghost use Rattle.line_text.specs.Identifiers.{is_identifier};
ghost use Rattle.job.specs.Forms.{is_type_name};
ghost use Rattle.line_text.specs.Words.{words, without_blanks};
ghost use Rattle.job.specs.Numbers.{alone, only, both, numeral_of, whole_of, mass_of, values_of};
ghost use Rattle.job.specs.Statements.{well_formed, parameter_is, global_is, type_is, energy_statement, parameter_statement, global_statement, type_statement, key_statement, entry_of};
ghost use Rattle.job.specs.Faults.{bad_line, repeated_name};
ghost use Rattle.job.specs.Drafts.{IsPut, slot_after, said_after};
ghost use Rattle.job.specs.JobText.{limits};
ghost use Rattle.job.specs.Views.{said_of, refusal_of, type_numbers_of};

use crate::bits::bits_in;
use crate::drafts::{Draft, TypeLine, TypeNumbers};
use crate::faults::{JobFault, Key};
use crate::forms::{is_type_name, key_of};
use crate::jobs::{AtomType, Global};
use crate::numbers::{cutoff, mass, numeral, signed_constant, values, whole};
use crate::time_steps::TimeStep;
use crate::words::{only_word, two_words};
use fallible::Failure;
use fixed::{Constant, Frac, Fx, NumFault};
use line_text::{Name, is_identifier, next_word, skip_blanks};
use std::alloc::{AllocError, Allocator};

// The limits of the number of parameters, globals and types of a job.
const MAX_PARAMETERS: usize = 8;

const MAX_GLOBALS: usize = 16;

const MAX_TYPES: usize = 64;

/// The core in nm, at least 0, in a text of one word.
fn core_in(frac: Frac, text: &[u8]) -> Result<Fx, NumFault>
    ensures value { result ≡ alone (numeral_of frac) (words text.now) }
    ensures least { IfOk result (λ v. pos 0 ≤ℤ v) }
{
    numeral(frac, only_word(text)?)
}

/// The integer from 1 to `most` in a text of one word.
fn whole_in(most: u32, text: &[u8]) -> Result<u32, NumFault>
    requires { most ≤ 65536 }
    ensures value { result ≡ alone (whole_of 1 most) (words text.now) }
    ensures range { IfOk result (λ n. (1 ≤ n) × (n ≤ most)) }
{
    whole(1, most, only_word(text)?)
}

// The time step, 1 to 1000 fs, in a text of one word.
fn time_step_in(text: &[u8]) -> Result<TimeStep, NumFault>
    ensures { result ≡ alone (whole_of 1 1000) (words text.now) }
{
    Ok(TimeStep::new(whole_in(1000, text)?))
}

/// Stores the number of a key that may have only one line.
///
/// Errors, in this order: `BadLine` if the number is malformed, `Repeated` if the key has a number, `Range` if the new
/// number is out of range.
fn put_once<T: Copy, A: Allocator>(
    number: u64,
    key: Key,
    slot: &mut Option<T>,
    reading: Result<T, NumFault>,
) -> Result<(), Failure<JobFault<A>>>
    ensures value { Gives (λ _. slot.new) refusal_of result (slot_after number key slot.old (well_formed reading)) }
    ensures slot { IsPut slot.old slot.new reading }
{
    match (reading, *slot) {
        (Err(NumFault::BadNumber), _) => Err(Failure::Refused(JobFault::BadLine { line: number })),
        (_, Some(_)) => Err(Failure::Refused(JobFault::Repeated { key })),
        (Err(NumFault::NumberRange), None) => Err(Failure::Refused(JobFault::Range { key })),
        (Ok(value), None) => {
            *slot = Some(value);
            Ok(())
        }
    }
}

/// Adds the energy of this line to the draft.
///
/// `BadLine` if the line has no text, else `Repeated` if the draft has an energy.
fn take_energy<A: Allocator>(
    alloc: A,
    draft: &mut Draft<A>,
    number: u64,
    text: &[u8],
) -> Result<(), Failure<JobFault<A>>>
    ensures { Gives (λ _. said_of draft.new) refusal_of result
        (said_after limits number (said_of draft.old) (energy_statement (without_blanks text.now))) }
{
    let text = skip_blanks(text);
    if text.is_empty() {
        return Err(Failure::Refused(JobFault::BadLine { line: number }));
    }
    if !draft.energy.is_empty() {
        return Err(Failure::Refused(JobFault::Repeated { key: Key::Energy }));
    }
    draft.energy = Vec::from_slice(alloc, text)?;
    Ok(())
}

/// The name as a string.
fn text_of<A: Allocator>(alloc: A, name: &[u8]) -> Result<String<A>, AllocError>
    requires { IsAscii name.now }
    ensures { IfOk result (λ s. string_bytes s ≡ name.now) }
{
    match std::str::from_utf8(name) {
        Ok(text) => String::from_str(alloc, text),
        Err(_) => unreachable!(),
    }
}

/// The failure for a second `parameter` or `global` line with this name.
#[tactic(auto, using(line_text::proofs::IdentifierLaws::ascii_identifier))]
fn repeated_name<A: Allocator>(alloc: A, name: &[u8]) -> Failure<JobFault<A>>
    requires { is_identifier name.now ≡ true }
    ensures { IfRefused result (λ fault. refusal_of fault ≡ repeated_name name.now) }
{
    match text_of(alloc, name) {
        Ok(name) => Failure::Refused(JobFault::RepeatedName { name }),
        Err(_) => Failure::Memory,
    }
}

/// Whether a parameter has the name.
fn knows_parameter<A: Allocator>(parameters: &[Vec<u8, A>], name: &[u8]) -> bool
    ensures { result ≡ list_any (λ p. bytes_eq p.items name.now) parameters.now }
{
    parameters.iter().any(|p| p.as_slice() == name)
}

/// Whether a global has the name.
fn knows_global<A: Allocator>(globals: &[Global<A>], name: &[u8]) -> bool
    ensures { result ≡ list_any (λ g. bytes_eq g.name.items name.now) globals.now }
{
    globals.iter().any(|g| g.name.as_slice() == name)
}

/// Whether a type has the name.
fn knows_type<A: Allocator>(types: &[TypeLine<A>], name: &[u8]) -> bool
    ensures { result ≡ list_any (λ t. bytes_eq (name_text t.value.name) name.now) types.now }
{
    types.iter().any(|t| t.value.name.as_bytes() == name)
}

/// Adds a parameter to the draft.
///
/// `RepeatedName` if a parameter has the name, else `Range` if the draft has 8 parameters.
fn add_parameter<A: Allocator + Copy>(
    alloc: A,
    draft: &mut Draft<A>,
    name: &[u8],
) -> Result<(), Failure<JobFault<A>>>
    requires { is_identifier name.now ≡ true }
    ensures { Gives (λ _. said_of draft.new) refusal_of result (said_after limits 0 (said_of draft.old) (Some (parameter_is name.now))) }
{
    if knows_parameter(draft.parameters.as_slice(), name) {
        return Err(repeated_name(alloc, name));
    }
    if draft.parameters.len() >= MAX_PARAMETERS {
        return Err(Failure::Refused(JobFault::Range {
            key: Key::Parameter,
        }));
    }
    let name = Vec::from_slice(alloc, name)?;
    draft.parameters.push(name)?;
    Ok(())
}

/// Adds the parameter of this line to the draft.
///
/// `BadLine` if the text isn't one identifier, else the errors of `add_parameter`.
fn take_parameter<A: Allocator + Copy>(
    alloc: A,
    draft: &mut Draft<A>,
    number: u64,
    text: &[u8],
) -> Result<(), Failure<JobFault<A>>>
    ensures { Gives (λ _. said_of draft.new) refusal_of result
        (said_after limits number (said_of draft.old) (parameter_statement (only (words text.now)))) }
{
    match only_word(text) {
        Ok(name) if is_identifier(name) => add_parameter(alloc, draft, name),
        _ => Err(Failure::Refused(JobFault::BadLine { line: number })),
    }
}

/// Adds a global to the draft. The value is `None` if it is out of range.
///
/// `RepeatedName` if a global has the name, else `Range` if the value is out of range or the draft has 16 globals.
fn add_global<A: Allocator + Copy>(
    alloc: A,
    draft: &mut Draft<A>,
    name: &[u8],
    value: Option<Constant>,
) -> Result<(), Failure<JobFault<A>>>
    requires { is_identifier name.now ≡ true }
    ensures { Gives (λ _. said_of draft.new) refusal_of result (said_after limits 0 (said_of draft.old) (Some (global_is name.now value))) }
{
    if knows_global(draft.globals.as_slice(), name) {
        return Err(repeated_name(alloc, name));
    }
    let Some(value) = value else {
        return Err(Failure::Refused(JobFault::Range { key: Key::Global }));
    };
    if draft.globals.len() >= MAX_GLOBALS {
        return Err(Failure::Refused(JobFault::Range { key: Key::Global }));
    }
    let name = Vec::from_slice(alloc, name)?;
    draft.globals.push(Global { name, value })?;
    Ok(())
}

// The number, `None` if it is out of range.
//
// `BadLine` if it is malformed.
fn well_formed<T, A: Allocator>(
    number: u64,
    reading: Result<T, NumFault>,
) -> Result<Option<T>, JobFault<A>>
    ensures { Answers (λ x. x) refusal_of result (ok_or (well_formed reading) (bad_line number)) }
{
    match reading {
        Ok(value) => Ok(Some(value)),
        Err(NumFault::NumberRange) => Ok(None),
        Err(NumFault::BadNumber) => Err(JobFault::BadLine { line: number }),
    }
}

/// Adds the global of this line to the draft.
///
/// `BadLine` if the text isn't an identifier and a numeral, else the errors of `add_global`.
fn take_global<A: Allocator + Copy>(
    alloc: A,
    draft: &mut Draft<A>,
    number: u64,
    text: &[u8],
) -> Result<(), Failure<JobFault<A>>>
    ensures { Gives (λ _. said_of draft.new) refusal_of result
        (said_after limits number (said_of draft.old) (global_statement draft.old.frac (words text.now))) }
{
    match two_words(text) {
        Some((name, value)) if is_identifier(name) => {
            let value = well_formed(number, signed_constant(draft.frac, value))?;
            add_global(alloc, draft, name, value)
        }
        _ => Err(Failure::Refused(JobFault::BadLine { line: number })),
    }
}

/// The mass in `mass_word` and the values in `text`; `None` if one of them is out of range.
///
/// `BadLine` if one of them is malformed.
fn type_numbers<A: Allocator>(
    alloc: A,
    frac: Frac,
    number: u64,
    mass_word: &[u8],
    text: &[u8],
) -> Result<Option<TypeNumbers<A>>, Failure<JobFault<A>>>
    ensures { Gives (option_map type_numbers_of) refusal_of result
        (ok_or (well_formed (both (mass_of mass_word.now) (values_of frac (words text.now)))) (bad_line number)) }
{
    match (mass(mass_word), values(alloc, frac, text)?) {
        (Err(NumFault::BadNumber), _) => Err(Failure::Refused(JobFault::BadLine { line: number })),
        (_, Err(NumFault::BadNumber)) => Err(Failure::Refused(JobFault::BadLine { line: number })),
        (Ok(mass), Ok(values)) => Ok(Some(TypeNumbers { mass, values })),
        _ => Ok(None),
    }
}

/// Adds a type to the draft, from the line with this number. The numbers are `None` if one of them is out of range.
///
/// `RepeatedType` if a type has the name, else `Range` if a number is out of range or the draft has 64 types.
fn add_type<A: Allocator + Copy>(
    alloc: A,
    draft: &mut Draft<A>,
    number: u64,
    word: &[u8],
    numbers: Option<TypeNumbers<A>>,
) -> Result<(), Failure<JobFault<A>>>
    requires { is_type_name word.now ≡ true }
    ensures { Gives (λ _. said_of draft.new) refusal_of result
        (said_after limits number (said_of draft.old) (Some (type_is word.now (option_map type_numbers_of numbers)))) }
{
    if knows_type(draft.types.as_slice(), word) {
        let name = text_of(alloc, word)?;
        return Err(Failure::Refused(JobFault::RepeatedType { name }));
    }
    let Some(numbers) = numbers else {
        return Err(Failure::Refused(JobFault::Range { key: Key::Types }));
    };
    if draft.types.len() >= MAX_TYPES {
        return Err(Failure::Refused(JobFault::Range { key: Key::Types }));
    }
    let Some(name) = Name::new(word) else {
        unreachable!()
    };
    draft.types.push(TypeLine {
        line: number,
        value: AtomType {
            name,
            mass: numbers.mass,
            values: numbers.values,
        },
    })?;
    Ok(())
}

/// Adds the type of this line to the draft.
///
/// `BadLine` if the name or the mass is missing, or if the name, the mass or a value is malformed; else the errors of
/// `add_type`.
fn take_type<A: Allocator + Copy>(
    alloc: A,
    draft: &mut Draft<A>,
    number: u64,
    text: &[u8],
) -> Result<(), Failure<JobFault<A>>>
    ensures { Gives (λ _. said_of draft.new) refusal_of result
        (said_after limits number (said_of draft.old) (type_statement draft.old.frac (words text.now))) }
{
    let Some((name, rest)) = next_word(text) else {
        return Err(Failure::Refused(JobFault::BadLine { line: number }));
    };
    let Some((mass, rest)) = next_word(rest) else {
        return Err(Failure::Refused(JobFault::BadLine { line: number }));
    };
    if !is_type_name(name) {
        return Err(Failure::Refused(JobFault::BadLine { line: number }));
    }
    let numbers = type_numbers(alloc, draft.frac, number, mass, rest)?;
    add_type(alloc, draft, number, name, numbers)
}

/// Adds the value of a line with this key, and this text after the key, to the draft.
///
/// `BadLine` if the key isn't a job's, else the errors of the key's function.
fn take_key<A: Allocator + Copy>(
    alloc: A,
    draft: &mut Draft<A>,
    number: u64,
    key: Option<Key>,
    text: &[u8],
) -> Result<(), Failure<JobFault<A>>>
    ensures { Gives (λ _. said_of draft.new) refusal_of result
        (said_after limits number (said_of draft.old) (key_statement draft.old.frac key text.now)) }
{
    match key {
        None => Err(Failure::Refused(JobFault::BadLine { line: number })),
        Some(Key::Energy) => take_energy(alloc, draft, number, text),
        Some(Key::Core) => {
            let core = core_in(draft.frac, text);
            put_once(number, Key::Core, &mut draft.core, core)
        }
        Some(Key::Cutoff) => {
            let cutoff = cutoff(draft.frac, text);
            put_once(number, Key::Cutoff, &mut draft.cutoff, cutoff)
        }
        Some(Key::TimeStep) => {
            let time_step = time_step_in(text);
            put_once(number, Key::TimeStep, &mut draft.time_step, time_step)
        }
        Some(Key::Slices) => {
            let slices = whole_in(65536, text);
            put_once(number, Key::Slices, &mut draft.slices, slices)
        }
        Some(Key::Parameter) => take_parameter(alloc, draft, number, text),
        Some(Key::Global) => take_global(alloc, draft, number, text),
        Some(Key::Types) => take_type(alloc, draft, number, text),
        Some(Key::Bits) => {
            let bits = bits_in(text);
            put_once(number, Key::Bits, &mut draft.bits, bits)
        }
    }
}

/// Adds the value of this line to the draft of the lines above it. Comments and blank lines leave it unchanged.
///
/// Errors: see `take_key`.
#[tactic(auto, unfolding(crate::specs::Statements::entry_of))]
pub fn take_line<A: Allocator + Copy>(
    alloc: A,
    draft: &mut Draft<A>,
    number: u64,
    line: &[u8],
) -> Result<(), Failure<JobFault<A>>>
    ensures { Gives (λ _. said_of draft.new) refusal_of result
        (said_after limits number (said_of draft.old) (entry_of draft.old.frac line.now)) }
{
    if let [b'#', ..] = line {
        return Ok(());
    }
    match next_word(line) {
        None => Ok(()),
        Some((word, text)) => take_key(alloc, draft, number, key_of(word), text),
    }
}
