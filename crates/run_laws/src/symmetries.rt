//! Symmetries of the motion, for every job and state.

ghost use Rattle.run_laws.specs.Symmetries.{ForcesAreReordered, ForcesAreTranslated, OrdersAreUndone, ReorderedAreSafe, RunsAreReordered, RunsAreTranslated, ShiftsAreUndone, StatesAreReordered, StatesAreTranslated, StepsAreReordered, StepsAreTranslated, StepsDrift, TranslatedAreSafe};

/// Translation invariance. If all coordinates are shifted by one vector, modulo 2^32, all forces are unchanged, and
/// each frame, each state and the text of each run is the shifted image of the original one. If the shift grows evenly
/// from frame to frame (a uniform drift of all atoms), each frame is again a shifted image. The code is accepted for
/// both states, and every shift has an inverse.
pub fn translations()
    ensures forces { ForcesAreTranslated }
    ensures steps { StepsAreTranslated }
    ensures drift { StepsDrift }
    ensures states { StatesAreTranslated }
    ensures runs { RunsAreTranslated }
    ensures safe { TranslatedAreSafe }
    ensures undone { ShiftsAreUndone }
{}

/// Invariance under permutation of the axes. If coordinates and sides have their axes in another order, each force,
/// each frame, each state and the text of each run is the original one with its axes in that order. The code is
/// accepted for both states, and every permutation has an inverse.
pub fn axes()
    ensures forces { ForcesAreReordered }
    ensures steps { StepsAreReordered }
    ensures states { StatesAreReordered }
    ensures runs { RunsAreReordered }
    ensures safe { ReorderedAreSafe }
    ensures undone { OrdersAreUndone }
{}
