//! Pairs of types, with the inputs besides the distance, as they were read.
ghost use Rattle.std.specs.Prelude.{◌≡◌, ◌<◌, ◌++◌, IfOk, length, map};
ghost use Rattle.job.specs.Views.{global_value, job_value};
ghost use Rattle.curves.specs.Tables.{constants_of, others_of};

use fixed::Constant;
use job::{Global, Job};
use std::alloc::{AllocError, Allocator};

/// Two types of a job, counted from 0: the first is the type of the atom with the lower number.
#[derive(Drop)]
pub(crate) struct Pair<A: Allocator> {
    pub(crate) a: u32,
    pub(crate) b: u32,
    /// The parameters of both types and the globals.
    pub(crate) others: Vec<Constant, A>,
}

// Appends globals as they were read.
fn append_globals<A: Allocator>(
    constants: &mut Vec<Constant, A>,
    globals: &[Global<A>],
) -> Result<(), AllocError>
    ensures { IfOk result (λ _. constants.new.items ≡ constants.old.items ++ map (λ g. g.value) (map global_value globals.now)) }
{
    for global in globals {
        constants.push(global.value)?;
    }
    Ok(())
}

// The parameters of the type with this number, as they were read.
fn constants_of<A: Allocator>(job: &Job<A>, number: u32) -> &[Constant]
    requires { number < length job.now.types.items }
    ensures { result.now ≡ constants_of (job_value job.now) number }
{
    &job.types[number as usize].values
}

impl<A: Allocator + Copy> Pair<A> {
    /// The pair of types with these numbers.
    pub(crate) fn new(alloc: A, job: &Job<A>, a: u32, b: u32) -> Result<Pair<A>, AllocError>
        requires first { a < length job.now.types.items }
        requires second { b < length job.now.types.items }
        ensures first { IfOk result (λ p. p.a ≡ a) }
        ensures second { IfOk result (λ p. p.b ≡ b) }
        ensures others { IfOk result (λ p. p.others.items ≡ others_of (job_value job.now) a b) }
    {
        let mut others = Vec::from_slice(alloc, constants_of(job, a))?;
        others.extend_from_slice(constants_of(job, b))?;
        append_globals(&mut others, &job.globals)?;
        Ok(Pair { a, b, others })
    }
}
