//! Every order of the events of a small round, played by the state machine.

ghost use Rattle.std.specs.Prelude.{◌≡◌, IfOk};

use crate::listed::{Listed, add};
use crate::pools::come_to;
use crate::recorded::Record;
use round_model::Round;
use rounds::{Event, PairAdds, Work};
use std::alloc::{AllocError, Global};
use std::test::Fail;

/// The number of workers.
const WORKERS: u32 = 2;

/// The number of atoms.
const ATOMS: u32 = 3;

/// The number of events of each order: four claims and twelve deposits.
const EVENTS: usize = 16;

/// The sums of the forces of `two_tiles`.
const SUMS: [i64; 9] = [1, -2, 3, 39, 52, -63, -40, -50, 60];

/// Two tiles with one interacting pair each. The second also has a pair that doesn't interact.
fn two_tiles(alloc: Global) -> Result<Listed, AllocError>
    ensures { IfOk result (λ w. w.atoms ≡ 3) }
{
    let first = vec![in alloc; add(0, 1, [1, -2, 3]); 1]?;
    let second = Vec::from_array(alloc, [None, add(1, 2, [40, 50, -60])])?;
    Ok(Listed {
        atoms: ATOMS,
        tiles: Vec::from_array(alloc, [first, second])?,
    })
}

/// The round of two workers after these events. `None` if an event is rejected, the work is too large, or memory ran
/// out.
fn after<'w>(
    alloc: Global,
    work: &'w Listed,
    events: &[Event],
) -> Option<Round<'w, Listed, Global>> {
    if work.atoms > ATOMS || work.tiles() > 2 {
        return None;
    }
    let Ok(mut round) = Round::new(alloc, work, ATOMS, WORKERS) else {
        return None;
    };
    for event in events {
        if round.step(*event).is_err() {
            return None;
        }
    }
    Some(round)
}

/// Whether the round has drawn a ticket for each tile and each worker, and has these sums.
fn is_whole(round: &Round<Listed, Global>, sums: &[i64]) -> bool {
    round.tickets() == 4 && round.sums() == sums
}

/// The number of orders that begin with these events, and end with `left` more events and with `SUMS`. `None` if an order
/// ends otherwise. An order ends when no event is accepted. A rejected event leaves the round as it is, so the next one
/// is tried on the same round.
fn orders(alloc: Global, work: &Listed, events: &mut Vec<Event>, left: usize) -> Option<u32> {
    let mut round = after(alloc, work, events.as_slice())?;
    let mut count = 0u32;
    for event in [
        Event::Claim(0),
        Event::Deposit(0),
        Event::Claim(1),
        Event::Deposit(1),
    ] {
        if round.step(event).is_ok() {
            if left == 0 {
                return None;
            }
            events.push(event).ok()?;
            count = count.saturating_add(orders(alloc, work, events, left - 1)?);
            events.pop();
            round = after(alloc, work, events.as_slice())?;
        }
    }
    if count == 0 {
        let ended = left == 0 && is_whole(&round, &SUMS);
        return ended.then_some(1);
    }
    Some(count)
}

// A worker that draws n tiles makes n times a claim and six deposits, and then its last claim. The tickets are drawn in
// order, so both last claims come after both tiles' claims.
//
// - If each worker draws a tile, each has 8 events. Of the 16! / (8! 8!) = 12,870 ways to merge them, two are no orders:
//   in them one worker ends before the other begins.
// - If one worker draws both tiles, it has 15 events. The other's only event is its last claim, after 8 to 15 of them:
//   8 orders for either worker.
//
// In all 12,870 - 2 + 2 * 8 = 12,884 orders.
#[test]
fn every_order_ends_with_the_sums_of_the_pool(rt: HostRuntime) -> Result<(), Fail> {
    let alloc = rt.alloc();
    let work = two_tiles(alloc)?;
    let scratches = &mut [PairAdds::new(), PairAdds::new()];
    assert!(rt; come_to(&rt, alloc, &work, scratches, &Record::new(0), &SUMS)?);
    let count = orders(alloc, &work, &mut Vec::new(alloc), EVENTS);
    assert!(rt; count == Some(12_884), "{count:?}");
    Ok(())
}
