//! Traps of the tested machine, and their lines.

use fixed::{Frac, Fx};
use kernel_code::{TypeTable, read, run_checked};
use std::alloc::Global;
use std::test::*;

/// Whether the machine stops with this line in this listing, for two types without parameters, with a global, at the
/// distance 2^-32 nm.
fn stops(alloc: Global, lines: &str, line: &str) -> Result<bool, Fail> {
    let text = format!(in alloc; "pairmd code 1\n{lines}")?;
    let code = read(alloc, text.as_bytes())?;
    let rows = Vec::from_array(alloc, [Vec::new(alloc), Vec::new(alloc)])?;
    let globals = vec![in alloc; Fx::from_raw(5)]?;
    let table = TypeTable::new(Frac::F32, 0, rows, globals);
    let outcome = run_checked(&code, &table, 0, 1, Fx::from_raw(1));
    let trap = outcome.err().ok_or("a value")?;
    Ok(format!(in alloc; "{trap}")?.as_str() == line)
}

/// Whether the machine stops with this line in a listing that fills the stack and then has the line `last`.
fn stops_full(alloc: Global, last: &str, line: &str) -> Result<bool, Fail> {
    let mut lines = String::new(alloc);
    for _ in 0..64 {
        lines.push_str("push 0\n")?;
    }
    lines.push_str(last)?;
    stops(alloc, lines.as_str(), line)
}

#[test]
fn stops_at_an_index(rt: HostRuntime) -> Result<(), Fail> {
    for (lines, line) in [
        ("push 0\nadd\n", "pc 1 M1 MissingOperand"),
        ("push 0\nget 3\n", "pc 1 M2 MissingLocal"),
        ("input 2\n", "pc 0 M3 MissingInput"),
        ("push 0\npush 0\n", "pc 2 M5 BadEnd"),
        ("input 0\npush 0\ndiv\n", "pc 2 F2 ZeroDivisor"),
    ] {
        assert!(rt; stops(rt.alloc(), lines, line)?, "{line}");
    }
    for (last, line) in [
        ("input 0\n", "pc 64 M4 StackFull"),
        ("get 0\n", "pc 64 M2 MissingLocal"),
    ] {
        assert!(rt; stops_full(rt.alloc(), last, line)?, "{line}");
    }
    Ok(())
}
