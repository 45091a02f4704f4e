//! Laws of the table, which implements the state machine of a round, and of its sums.
ghost use Rattle.std.specs.Prelude.{List, Option};
ghost use Rattle.rounds.specs.declared.work.PairAdd.{PairAdd};
ghost use Rattle.rounds.specs.Tiles.{Addition};
ghost use Rattle.rounds.specs.ExactSums.{PlanHasWords, TotalsComeOut};
ghost use Rattle.rounds.specs.Events.{Opens, ClaimsAccepted, DepositsAccepted, CutsKeep, JoinsKeep};

/// Law: the table of a pool implements the state machine of a round. The new table represents the machine's opening
/// state. If the table represents a state, a worker that draws a ticket is a claim, and a worker that makes the
/// addition that it owes next is a deposit: the machine accepts the event, and the table then represents the state
/// after it. Handing out a worker's seat and taking it back is no event.
pub fn steps_are_events()
    ensures opens { (tiles : List (List Addition)) → Opens tiles }
    ensures claims { (tiles : List (List Addition)) → ClaimsAccepted tiles }
    ensures deposits { (tiles : List (List Addition)) → DepositsAccepted tiles }
    ensures cuts { (tiles : List (List Addition)) → CutsKeep tiles }
    ensures joins { (tiles : List (List Addition)) → JoinsKeep tiles }
{}

/// Law: the sum of all amounts on a component over all tiles, modulo 2^64 and read as a signed number, is the exact sum
/// of the forces, if that sum fits 64 bits.
#[tactic(auto, using(crate::proofs::ExactLemmas::comes_out))]
pub fn exact_totals()
    ensures { (plan : List (List (Option PairAdd))) → PlanHasWords plan → TotalsComeOut plan }
{}
