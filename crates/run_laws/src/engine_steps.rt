//! Laws of the steps of an engine.

ghost use Rattle.run_laws.specs.EngineSteps.{StepsAdd, StepsReturn};

/// Steps of an engine add up: some steps and then more in the same direction are the steps of both counts.
pub fn steps_add()
    ensures { StepsAdd }
{}

/// Steps of an engine, and then the same number in the other direction, lead back to the starting engine.
pub fn steps_return()
    ensures { StepsReturn }
{}
