// The variables of energy texts.
ghost use Rattle.std.specs.Prelude.{◌≡◌, ◌≤◌, length};
ghost use Rattle.energy_program.specs.Tree.{variable_count};

use indexmap::IndexSet;
use std::alloc::Allocator;
use std::hash::{BuildHasherDefault, FoldHasher};

/// The maximum number of parameters per particle.
pub const MAX_PARAMETERS: usize = 8;

/// The maximum number of globals.
pub const MAX_GLOBALS: usize = 16;

/// A set of names, numbered in the order of insertion.
pub(crate) type NameSet<A> = IndexSet<Vec<u8, A>, BuildHasherDefault<FoldHasher>, A>;

/// The variables that an energy text may use: the distance `r`, `p1` and `p2` for each parameter `p` of a particle, and
/// the globals. Names are distinct, and only `r` is reserved. They are checked before the text is parsed.
#[derive(Drop)]
pub struct Names<A: Allocator> {
    pub(crate) variables: NameSet<A>,
    /// Parameters per particle, at most 8.
    pub parameters: u32,
    /// Number of globals, at most 16.
    pub globals: u32,
    pub ghost few_parameters: { parameters ≤ 8 },
    pub ghost few_globals: { globals ≤ 16 },
    pub ghost counted: { length variables.keys ≡ variable_count parameters globals },
}
