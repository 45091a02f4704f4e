//! Theorems about verdicts, for all code, tables and ranges of distances.

ghost use Rattle.verifier.specs.Laws.{AcceptedAreSafe, RefusedAreWrong, VerdictsAreOne};

/// There is at most one verdict on code for a table, core, cutoff, number of slices and depth.
#[tactic(auto, using(crate::proofs::OneVerdict::verdict_same))]
pub fn verdicts_are_one()
    ensures { VerdictsAreOne }
{}

/// Verdicts are sound. If the verdict is a bound, the code gives a value of at most this magnitude for every pair of
/// types at every distance. If the verdict is an error, one of these holds: some path is malformed as described; the
/// machine traps as described at the distance named; or the machine gives values at both distances named, and the range
/// has more than slices times 2^depth distances.
pub fn verdicts_are_kept()
    ensures accepted { AcceptedAreSafe }
    ensures refused { RefusedAreWrong }
{}
