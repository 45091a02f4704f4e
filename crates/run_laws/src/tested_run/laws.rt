//! Laws of tested runs: each run of code has one outcome, and each pair of texts has one start or refusal.

ghost use Rattle.run_laws.specs.Outcomes.{OutcomesAreEnds};
ghost use Rattle.run_laws.specs.Starts.{StartsAlways, StartsOnce};

/// The outcome in a tested run's law of motion is the machine's: code whose jumps go forward has the outcome with which
/// its run ends after some number of instructions, and no other.
pub fn outcomes_are_ends()
    ensures { OutcomesAreEnds }
{}

/// The texts of a job and a state have a start or a refusal, for any law of motion, direction and number of steps.
pub fn starts_always()
    ensures { StartsAlways }
{}

/// The texts of a job and a state have at most one start or refusal.
pub fn starts_once()
    ensures { StartsOnce }
{}
