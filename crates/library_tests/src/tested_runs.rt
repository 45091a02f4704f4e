//! Runs with every operation tested, which no command makes.

use crate::fixtures::{JOB, STATE};
use fallible::Collected;
use integrator::Direction;
use run_laws::{TestedRunFault, run_bytes_checked};
use std::alloc::{AllocError, Global};
use std::test::*;

/// The line of the error with which one tested step ends; `None` if it ends otherwise.
fn line_of(
    alloc: Global,
    job: &[u8],
    state: &[u8],
    direction: Direction,
) -> Result<Option<String>, AllocError> {
    let mut out = Collected::new(alloc);
    match run_bytes_checked(alloc, job, state, 1, direction, &mut out) {
        Err(TestedRunFault::Run(failure)) => Ok(Some(format!(in alloc; "{failure}")?)),
        _ => Ok(None),
    }
}

/// Whether one tested step ends with this line.
fn ends(
    alloc: Global,
    job: &[u8],
    state: &[u8],
    direction: Direction,
    line: &str,
) -> Result<bool, AllocError> {
    match line_of(alloc, job, state, direction)? {
        Some(ended) => Ok(ended.as_str() == line),
        None => Ok(false),
    }
}

/// A job whose energy has a pole at 0.5 nm.
const POLE: &[u8] = b"pairmd job 1
energy 1/(r-0.5)
core 0.2
cutoff 0.9
dt 2
type AR 1
";

/// An atom at the greatest step counter.
const LAST: &[u8] = b"pairmd state 1
title last
step 9223372036854775807
atoms 1
box 200000 200000 200000
    1AR      AR 0 0 0 0 0 0
";

// The contract of a tested run determines its error. The tests are of the error's line.
#[test]
fn a_tested_run_stops_where_the_slope_has_no_value(rt: HostRuntime) -> Result<(), Fail> {
    let line = "A5 KernelFault -1 1 2 12 F2 ZeroDivisor";
    let stops = ends(rt.alloc(), POLE, STATE, Direction::Back, line)?;
    assert!(rt; stops);
    Ok(())
}

#[test]
fn a_tested_run_has_no_step_behind_the_last(rt: HostRuntime) -> Result<(), Fail> {
    let stops = ends(rt.alloc(), JOB, LAST, Direction::Forward, "A4 StepRange")?;
    assert!(rt; stops);
    Ok(())
}
