//! Engines from bytes.
//!
//! No function leads from bytes to an energy: callers open an engine first, which has forces and steps too.

ghost use Rattle.std.specs.Prelude.{IfOk, IfErr};
ghost use Rattle.fallible.specs.Failures.{IfRefused};
ghost use Rattle.engine.specs.Engines.{AreReadOnce, HasNoEngineOfTexts, IsEngineOfTexts};

use crate::engines::Engine;
use crate::faults::{InputFault, refused_as};
use fallible::Failure;
use job::Job;
use state::State;
use std::alloc::Allocator;

/// The engine of the bytes of a job and a state file.
///
/// The errors come in this order: errors of the job, of the state and of `Engine::new`.
pub fn open<A: Allocator + Copy>(
    alloc: A,
    job: &[u8],
    state: &[u8],
) -> Result<Engine<A>, Failure<InputFault<A>>>
    ensures opens { IfOk result (IsEngineOfTexts job.now state.now) }
    ensures once { IfOk result (λ _. AreReadOnce job.now state.now) }
    ensures refused { IfErr result (λ failure. IfRefused failure (HasNoEngineOfTexts job.now state.now)) }
{
    match Job::read(alloc, job) {
        Ok(job) => match State::read(alloc, state) {
            Ok(state) => Engine::new(alloc, job, state),
            Err(failure) => Err(refused_as(failure, |f| InputFault::State(f))),
        },
        Err(failure) => Err(refused_as(failure, |f| InputFault::Job(f))),
    }
}
