//! Laws of runs from texts to texts.

ghost use Rattle.run_laws.specs.RunTexts.{RunsAreTold, RunsReturn, RunsStaySafe, ToldAreAccepted, ToldAreRun, ToldReturn, WaysBackAreAccepted};

/// The state that a run writes is safe under its job if the starting state is: no instruction of the slope code faults
/// in further steps in either direction, and no pair takes more instructions than the certified number. So the verifier
/// accepts every text that a run writes.
pub fn runs_stay_safe()
    ensures { RunsStaySafe }
{}

/// The runs of the model and the run specification agree on all texts, accepted or not. The specification holds for the
/// text that a run writes and for no other. Conversely, the model has each run for which the specification holds,
/// unless the derivative of the job's energy is too large for a program and its code.
pub fn runs_are_told()
    ensures told { RunsAreTold }
    ensures run { ToldAreRun }
{}

/// Runs are reversible: the same number of steps in the other direction from the text that a run writes leads to the
/// starting text, to the last bit.
pub fn runs_return()
    ensures leads_back { ToldReturn }
    ensures returns { RunsReturn }
{}

/// If texts have a run and are accepted (`AreSafe`), the run is written unless memory runs out or the output fails. The
/// same holds for the reverse run from the text that the run writes.
pub fn runs_are_accepted<A>()
    ensures told { ToldAreAccepted A }
    ensures back { WaysBackAreAccepted A }
{}
