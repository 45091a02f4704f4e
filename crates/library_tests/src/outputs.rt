//! Texts as long as a state of many atoms, which an output into memory takes in full.

use fallible::{Collected, Out, write_all};
use std::alloc::Global;
use std::test::Fail;

/// The number of bytes of a long text.
const LENGTH: usize = 4_000_000;

/// The number of short texts that make one long text.
const TEXTS: usize = 100_000;

/// Whether the output, on which no write has failed, takes the whole text.
fn takes(out: &mut Collected<Global>, text: &[u8]) -> bool {
    out.failures() == 0 && write_all(out, text).is_ok()
}

#[test]
fn takes_long_texts(rt: HostRuntime) -> Result<(), Fail> {
    let alloc = rt.alloc();
    let long = vec![in alloc; 46u8; LENGTH]?;
    let mut out = Collected::new(alloc);
    let mut all = takes(&mut out, long.as_slice());
    for _ in 0..TEXTS {
        all = all && takes(&mut out, b"a line of a long text\n");
    }
    all = all && takes(&mut out, long.as_slice());
    let taken = out.bytes().len();
    assert!(rt; all && taken == 10_200_000, "{taken} bytes");
    Ok(())
}
