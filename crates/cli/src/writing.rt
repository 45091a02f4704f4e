//! Writing lines to an output.

ghost use Rattle.std.specs.Prelude.{◌≡◌, ◌-◌, ◌<◌, ◌^◌, ℕ, List, IfOk, string_bytes};
ghost use Rattle.cli.specs.Performed.{WritesLine};

use crate::faults::{CommandFault, write_result};
use fallible::{Out, write_all};
use std::alloc::{AllocError, Allocator};

/// Writes a line, unless memory ran out while the line was made.
pub(crate) fn write_line<'a, A: Allocator, O: Out>(
    line: Result<String<A>, AllocError>,
    out: &mut O,
) -> Result<(), CommandFault<'a, A>>
    requires { (O.output out.old).failed < 2 ^ 64 - 1 }
    ensures { (text : List ℕ) → IfOk line (λ s. string_bytes s ≡ text) → WritesLine text (O.output out.old) (O.output out.new) result }
{
    let line = line?;
    write_result(write_all(out, line.as_bytes()))
}
