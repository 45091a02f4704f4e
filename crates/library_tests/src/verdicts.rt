//! Verdicts on ranges of distances that no job has.

ghost use Rattle.std.specs.Prelude.{◌≤ℤ◌, ◌<ℤ◌, pos};

use fallible::Failure;
use fixed::{Fault, Frac, Fx};
use kernel_code::{TypeTable, read};
use std::alloc::Global;
use std::test::*;
use verifier::{IgnoredProgress, VerifyFault, verify};

/// Why this listing isn't accepted for one type without parameters, from the core to the cutoff in one slice.
fn refusal(alloc: Global, listing: &[u8], core: i64, cutoff: i64) -> Option<Failure<VerifyFault>>
    requires core { pos 0 ≤ℤ core }
    requires range { core <ℤ cutoff }
{
    let rows = vec![in alloc; Vec::new(alloc)].ok()?;
    let table = TypeTable::new(Frac::F32, 0, rows, Vec::new(alloc));
    let code = read(alloc, listing).ok()?;
    let core = Fx::from_raw(core);
    let cutoff = Fx::from_raw(cutoff);
    verify(alloc, code, table, core, cutoff, 1, &mut IgnoredProgress).err()
}

/// -1 / sq(r - 0.5).
const POLE: &[u8] = b"pairmd code 1\npush -4294967296\ninput 0\npush 2147483648\nsub\nsq\ndiv\n";

/// select(step(r - 0.5), sqrt(r - 0.4), 0).
const BRANCH: &[u8] = b"pairmd code 1\ninput 0\npush 2147483648\nsub\nstep\njumpifzero 10\n\
    input 0\npush 1717986918\nsub\nsqrt\njump 11\npush 0\n";

/// The refusal `Undecided` for the only type, with this interval, instruction index and fault.
fn undecided(lo: i64, hi: i64, pc: u32, fault: Fault) -> Option<Failure<VerifyFault>> {
    Some(Failure::Refused(VerifyFault::Undecided {
        first: 0,
        second: 0,
        lo: Fx::from_raw(lo),
        hi: Fx::from_raw(hi),
        pc,
        fault,
    }))
}

// The ranges are so long that a piece after 24 bisections is as long as a slice of the range from 0.2 to 0.9. The piece
// of `BRANCH` is the only slice of that range; the piece of `POLE` is the 28th of 64 slices, after 45 other pieces.
#[test]
fn long_slices_stay_undecided(rt: HostRuntime) {
    let branch = refusal(rt.alloc(), BRANCH, 858_993_459, 50_440_316_682_187_571);
    let pole = refusal(rt.alloc(), POLE, 13_421_763, 788_129_951_567_043);
    assert!(rt;
        branch == undecided(858_993_459, 3_865_470_565, 8, Fault::NegativeRoot)
            && pole == undecided(2_127_350_988, 2_174_327_192, 5, Fault::ZeroDivisor)
    );
}
