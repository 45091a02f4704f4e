//! Observers that are kept from one shown state to the next.

ghost use Rattle.std.specs.Prelude.{◌≡◌, Some, is_some, true, IfErr, IfOk};
ghost use Rattle.fallible.specs.Failures.{IfRefused};
ghost use Rattle.engine.specs.EngineEnergies.{HasNoEnergy};
ghost use Rattle.runs.specs.Readiness.{IsReady};

use crate::showing::Show;
use engine::{Engine, Observer};
use fallible::Failure;
use potential::EnergyFault;
use std::alloc::Allocator;
use std::marker::Model;

/// The observer of an engine, kept for all states that are shown, if their texts have energies.
#[derive(Drop)]
pub struct KeptObserver<A: Allocator + Copy> {
    observer: Option<Observer<A>>,
}

impl<A: Allocator + Copy> Model for KeptObserver<A> {
    ghost use Rattle.std.specs.Prelude.{Option};
    ghost use Rattle.verifier.specs.Kernels.{Kernel};

    ghost Value = { Option Kernel };

    ghost view = { λ kept. kept.observer };
}

impl<A: Allocator + Copy> KeptObserver<A> {
    /// Makes the observer of an engine, if texts of this kind need it.
    ///
    /// `Refused`: the code of the energy itself would be too large, or the verifier rejects it. `Memory`: memory ran
    /// out.
    pub fn new<S: Show<A>>(
        show: &S,
        engine: &Engine<A>,
    ) -> Result<KeptObserver<A>, Failure<EnergyFault<A>>>
        ensures ready { IfOk result (λ kept. IsReady (S.shows show.now).observes kept engine.now) }
        ensures refused { IfErr result (λ failure. IfRefused failure
            (λ f. (S.shows show.now).observes × HasNoEnergy engine.now f)) }
    {
        if !show.observes() {
            return Ok(KeptObserver { observer: None });
        }
        let observer = engine.observer()?;
        Ok(KeptObserver {
            observer: Some(observer),
        })
    }

    /// The observer, if one was made.
    pub fn observer(&self) -> &Observer<A>
        requires { is_some self.now ≡ true }
        ensures { self.now ≡ Some result.now }
    {
        let Some(observer) = &self.observer else {
            unreachable!()
        };
        observer
    }
}
