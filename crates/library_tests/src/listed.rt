//! Work whose tiles are lists of pairs.

ghost use Rattle.std.specs.Prelude.{◌&&◌, map, Option, Some, None, IfSome, nat_lt, if◌then◌else◌};
ghost use Rattle.std.specs.Option.{option_and_then};
ghost use Rattle.rounds.specs.Tiles.{IsPairOf};

use rounds::{PairAdd, PairAdds, RowWork, Work, next_from_pairs};

// Work whose tiles are lists of pairs. An entry that isn't a pair of the atoms is skipped.
#[derive(Drop)]
pub(crate) struct Listed {
    pub(crate) atoms: u32,
    pub(crate) tiles: Vec<Vec<Option<PairAdd>>>,
}

impl Work for Listed {
    ghost plan = { λ w. map (λ t. map (option_and_then (λ p. if nat_lt p.low p.high && nat_lt p.high w.atoms
        then Some p else None)) t.items) w.tiles.items };

    ghost atoms = { λ w. w.atoms };

    fn tiles(&self) -> u64 {
        self.tiles.len() as u64
    }

    fn pairs(&self, tile: u64) -> u64 {
        self.tiles[tile as usize].len() as u64
    }

    fn pair(&self, tile: u64, k: u64) -> Option<PairAdd> {
        match self.tiles[tile as usize][k as usize] {
            Some(p) if p.low < p.high && p.high < self.atoms => Some(p),
            _ => None,
        }
    }
}

pub(crate) fn add(low: u32, high: u32, force: [i64; 3]) -> Option<PairAdd> {
    Some(PairAdd { low, high, force })
}

impl RowWork<PairAdds> for Listed {
    ghost held = { λ s. s.items };

    fn next_adds(&self, scratch: &mut PairAdds, tile: u64, k: u64) -> u64 {
        next_from_pairs(self, tile, k, scratch)
    }

    fn count(&self, scratch: &PairAdds) -> usize {
        scratch.as_slice().len()
    }

    fn add_at(&self, scratch: &PairAdds, l: usize) -> PairAdd {
        scratch.as_slice()[l]
    }
}
