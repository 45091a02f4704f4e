//! From a job to its energy, the code of the energy's derivative, and the code of the energy itself.

ghost use Rattle.std.specs.Prelude.{◌≡◌, length, map, IfOk, Ok};
ghost use Rattle.fixed.specs.Fractions.{bits_of};
ghost use Rattle.energy_program.specs.Faults.{refusal_of};
ghost use Rattle.fallible.specs.Failures.{Gives};
ghost use Rattle.energy_program.specs.Names.{names_from};
ghost use Rattle.energy_program.specs.Variables.{names_of};
ghost use Rattle.energy_program.specs.Programs.{trees_of};
ghost use Rattle.job.specs.Views.{job_value};
ghost use Rattle.potential.specs.Energies.{IsCompiled, IsSlopeCode, energy_code_of, energy_from, energy_of, global_names, job_program, slope_code_of};
ghost use Rattle.potential.specs.EnergyViews.{energy_view, with_slope};

use crate::slope_parts::{Slope, SlopeParts};
use derivative::derive;
use energy_program::{ExprFault, Names, Program};
use expr::parse;
use fallible::Failure;
use fixed::Frac;
use job::{Global, Job};
use kernel_code::Code;
use kernel_compiler::compile;
use std::alloc::{AllocError, Allocator};

/// The names of a job's parameters, in order.
fn parameter_names<A: Allocator + Copy>(alloc: A, job: &Job<A>) -> Result<Vec<&[u8], A>, AllocError>
    ensures value { IfOk result (λ v. map (λ p. p.now) v.items ≡ map (λ p. p.items) job.now.parameters.items) }
{
    let mut names = Vec::new(alloc);
    for parameter in &job.parameters {
        names.push(parameter.as_slice())?;
    }
    Ok(names)
}

/// The names of these globals, in order.
fn global_names<A: Allocator + Copy>(
    alloc: A,
    globals: &[Global<A>],
) -> Result<Vec<&[u8], A>, AllocError>
    ensures value { IfOk result (λ v. map (λ g. g.now) v.items ≡ map (λ g. g.name.items) globals.now) }
{
    let mut names = Vec::new(alloc);
    for global in globals {
        names.push(global.name.as_slice())?;
    }
    Ok(names)
}

/// The names that a job's energy may use.
fn names<A: Allocator + Copy>(alloc: A, job: &Job<A>) -> Result<Names<A>, Failure<ExprFault<A>>>
    ensures value { Gives names_of refusal_of result
        (names_from (job_value job.now).parameters (global_names (job_value job.now).globals)) }
    ensures parameters { IfOk result (λ n. n.parameters ≡ length job.now.parameters.items) }
    ensures globals { IfOk result (λ n. n.globals ≡ length job.now.globals.items) }
{
    let parameters = parameter_names(alloc, job)?;
    let globals = global_names(alloc, &job.globals)?;
    Names::new(alloc, &parameters, &globals)
}

/// The program of a job's energy.
fn program<A: Allocator + Copy>(alloc: A, job: &Job<A>) -> Result<Program<A>, Failure<ExprFault<A>>>
    ensures value { Gives trees_of refusal_of result (job_program (job_value job.now)) }
    ensures parameters { IfOk result (λ p. p.parameters ≡ length job.now.parameters.items) }
    ensures globals { IfOk result (λ p. p.globals ≡ length job.now.globals.items) }
{
    let names = names(alloc, job)?;
    parse(alloc, job.frac, &job.energy, &names)
}

/// The derivative of this energy, as a program and its code.
fn slope_of<A: Allocator + Copy>(
    alloc: A,
    frac: Frac,
    energy: &Program<A>,
) -> Result<Slope<A>, Failure<ExprFault<A>>>
    ensures value { Gives (with_slope energy.now) refusal_of result (energy_from (bits_of frac) (trees_of energy.now)) }
    ensures compiled { IfOk result (λ s. IsCompiled (bits_of frac) energy.now.parameters energy.now.globals (with_slope energy.now s)) }
    ensures parameters { IfOk result (λ s. s.program.parameters ≡ energy.now.parameters) }
    ensures globals { IfOk result (λ s. s.program.globals ≡ energy.now.globals) }
{
    let program = derive(alloc, frac, energy)?;
    let code = compile(alloc, frac, &program)?;
    prove!(code.as_slice().len() <= 16_384);
    Ok(Slope { program, code })
}

/// The energy of a job, and the code of its derivative (its slope code).
///
/// Errors, in this order: from `Names::new` for the job's parameters and globals, from `parse`, from `derive`
/// and from `compile`. `Memory`: memory ran out.
pub fn job_slope<A: Allocator + Copy>(
    alloc: A,
    job: &Job<A>,
) -> Result<SlopeParts<A>, Failure<ExprFault<A>>>
    ensures value { Gives energy_view refusal_of result (energy_of (job_value job.now)) }
    ensures program { IfOk result (λ p. job_program (job_value job.now) ≡ Ok (trees_of p.energy)) }
    ensures compiled { IfOk result (λ p. IsCompiled (bits_of job.now.frac) (length job.now.parameters.items)
        (length job.now.globals.items) (energy_view p)) }
    ensures parameters { IfOk result (λ p. p.energy.parameters ≡ length job.now.parameters.items) }
    ensures globals { IfOk result (λ p. p.energy.globals ≡ length job.now.globals.items) }
    ensures slope_parameters { IfOk result (λ p. p.slope.parameters ≡ length job.now.parameters.items) }
    ensures slope_globals { IfOk result (λ p. p.slope.globals ≡ length job.now.globals.items) }
{
    let energy = program(alloc, job)?;
    let slope = slope_of(alloc, job.frac, &energy)?;
    Ok(SlopeParts {
        energy,
        slope: slope.program,
        code: slope.code,
    })
}

/// The code of the derivative of a job's energy, as a run of the job uses it. The verifier isn't called: the code may
/// have no value at any distance.
///
/// Returns the same errors as `job_slope`. `Memory`: memory ran out.
pub fn slope_code<A: Allocator + Copy>(
    alloc: A,
    job: &Job<A>,
) -> Result<Code<A>, Failure<ExprFault<A>>>
    // The exact result.
    ensures exact { Gives (λ code. code) refusal_of result (slope_code_of (job_value job.now)) }
    // The meaning of the code.
    ensures computes { IfOk result (IsSlopeCode (job_value job.now)) }
{
    let parts = job_slope(alloc, job)?;
    Ok(parts.code)
}

/// The code of a job's energy itself, not of its derivative. The verifier isn't called: the code may have no value at
/// any distance.
///
/// Errors, in this order: from `Names::new` for the job's parameters and globals, from `parse`, and from `compile`.
/// `Memory`: memory ran out.
pub fn energy_code<A: Allocator + Copy>(
    alloc: A,
    job: &Job<A>,
) -> Result<Code<A>, Failure<ExprFault<A>>>
    ensures { Gives (λ code. code) refusal_of result (energy_code_of (job_value job.now)) }
{
    let energy = program(alloc, job)?;
    compile(alloc, job.frac, &energy)
}
