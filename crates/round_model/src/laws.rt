//! Law of a round: the sums after every list of events.
ghost use Rattle.std.specs.Prelude.{◌≡◌, ◌≤◌, ◌+◌, ◌*◌, ℕ, List, Option, length};
ghost use Rattle.rounds.specs.declared.events.Event.{Event};
ghost use Rattle.rounds.specs.declared.work.PairAdd.{PairAdd};
ghost use Rattle.rounds.specs.Tiles.{Addition, tiles_of};
ghost use Rattle.rounds.specs.Interleaving.{opening, run, word};
ghost use Rattle.rounds.specs.ExactSums.{PlanHasWords};
ghost use Rattle.round_model.specs.Laws.{claims, SumsDeposits, IsOver, IsWhole, WordsComeOut};

/// Law of the state after any list of events from the opening state, for all tiles and every number of workers.
///
/// - Word 0 is the number of accepted claims, and at most the number of tiles plus workers.
/// - Each other word is the sum of the deposits made, modulo 2^64.
/// - If some worker has stopped, and every worker that ever claimed has stopped, each tile was drawn by one worker,
///   once, and each other word is the sum of all amounts on it over all tiles, modulo 2^64.
/// - If, moreover, the tiles are pairs with forces of 64 bits and the exact sum of a component fits 64 bits, its word
///   is that sum, whatever wrapped on the way.
pub fn every_order()
    ensures tickets { (tiles : List (List Addition)) (workers entries : ℕ) (events : List Event)
        → word (run tiles (opening workers entries) events) 0
        ≡ claims tiles (opening workers entries) events }
    ensures few { (tiles : List (List Addition)) (workers entries : ℕ) (events : List Event)
        → word (run tiles (opening workers entries) events) 0 ≤ length tiles + workers }
    ensures deposits { (tiles : List (List Addition)) (workers entries : ℕ) (events : List Event)
        → SumsDeposits tiles (opening workers entries) events }
    ensures whole { (tiles : List (List Addition)) (workers entries : ℕ) (events : List Event)
        → IsOver (run tiles (opening workers entries) events)
        → IsWhole tiles (opening workers entries) events }
    ensures exact { (plan : List (List (Option PairAdd))) (workers atoms : ℕ) (events : List Event)
        → PlanHasWords plan
        → IsOver (run (tiles_of plan) (opening workers (3 * atoms)) events)
        → WordsComeOut plan atoms (run (tiles_of plan) (opening workers (3 * atoms)) events) }
{}
