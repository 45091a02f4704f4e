//! The observed values of an engine's state.

ghost use Rattle.std.specs.Prelude.{◌≡◌, IfOk};
ghost use Rattle.engine.specs.Engines.{IsTyped};
ghost use Rattle.engine.specs.Observers.{IsObserverOf};
ghost use Rattle.runs.specs.Observations.{AreScalesOf, IsObservationOf};

use engine::{Engine, Observer};
use observables::{Observation, Scales, momentum, products, squares};
use std::alloc::{AllocError, Allocator};

/// The units of the observed integers of an engine, which has the types of its state's atoms.
pub(crate) fn scales<A: Allocator + Copy>(engine: &Engine<A>) -> Scales
    ensures scales { AreScalesOf engine.now result }
    ensures typed { IsTyped engine.now }
{
    Scales {
        frac: engine.frac(),
        time_step: engine.time_step(),
        ring: engine.ring(),
        atoms: engine.state().atoms.len() as u32,
    }
}

/// The observed values of an engine's state. `AllocError`: memory ran out.
pub(crate) fn observe<A: Allocator + Copy>(
    engine: &mut Engine<A>,
    observer: &Observer<A>,
) -> Result<Observation, AllocError>
    requires { IsObserverOf engine.old observer.now }
    ensures observation { IfOk result (IsObservationOf engine.old) }
    ensures engine { engine.new ≡ engine.old }
{
    let pairs = engine.observe(observer)?;
    let next = engine.next_frame()?;
    let masses = engine.masses();
    let (previous, current) = (engine.previous(), engine.current());
    Ok(Observation {
        step: engine.step(),
        pairs,
        squares: squares(masses, previous, current, &next),
        products: products(masses, previous, current, &next),
        momentum: momentum(masses, previous, current),
    })
}
