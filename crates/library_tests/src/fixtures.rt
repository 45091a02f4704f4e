//! A handwritten job and states, and their engines.

use engine::Engine;
use fallible::Collected;
use job::Job;
use state::State;
use std::alloc::{AllocError, Allocator, Global};

/// A job for atoms that repel each other with the energy 1/r.
pub(crate) const JOB: &[u8] = b"pairmd job 1
energy 1/r
core 0.2
cutoff 0.9
dt 2
slices 64
type AR 1
";

/// Two atoms at rest, 0.5 nm apart in a box of 2 nm.
pub(crate) const STATE: &[u8] = b"pairmd state 1
title two atoms
step 0
atoms 2
box 200000 200000 200000
    1AR      AR 1073741824 0 0 1073741824 0 0
    1AR      AR 2147483648 0 0 2147483648 0 0
";

/// Appends the coordinates of a place.
fn put_place(text: &mut Vec<u8>, x: &str, y: &str, z: &str) -> Result<(), AllocError> {
    text.extend_from_slice(x.as_bytes())?;
    text.extend_from_slice(y.as_bytes())?;
    text.extend_from_slice(z.as_bytes())?;
    Ok(())
}

/// Appends the line of an atom at rest.
fn put_atom(text: &mut Vec<u8>, x: &str, y: &str, z: &str) -> Result<(), AllocError> {
    text.extend_from_slice(b"    1AR      AR")?;
    put_place(text, x, y, z)?;
    put_place(text, x, y, z)?;
    text.push(b'\n')?;
    Ok(())
}

/// Appends the lines of a row of atoms along the first side.
fn put_row(text: &mut Vec<u8>, y: &str, z: &str) -> Result<(), AllocError> {
    for x in ROWS {
        put_atom(text, x, y, z)?;
    }
    Ok(())
}

/// Appends the lines of a layer of rows.
fn put_layer(text: &mut Vec<u8>, z: &str) -> Result<(), AllocError> {
    for y in ROWS {
        put_row(text, y, z)?;
    }
    Ok(())
}

/// The coordinates of the atoms of `clusters` along each side: 0.7, 1.1, 2.5 and 2.9 nm.
const ROWS: [&str; 4] = [" 835132529", " 1312351117", " 2982616175", " 3459834763"];

/// The lines before the atoms of `clusters`.
const CLUSTERS: &[u8] = b"pairmd state 1
title clusters
step 0
atoms 64
box 360000 360000 360000
";

/// Sixty-four atoms at rest in a box of 3.6 nm, at 0.7, 1.1, 2.5 and 2.9 nm along each side: one in each cell of 0.9
/// nm, in groups of eight near one another.
pub(crate) fn clusters(alloc: Global) -> Result<Vec<u8>, AllocError> {
    let mut text = Vec::from_slice(alloc, CLUSTERS)?;
    for z in ROWS {
        put_layer(&mut text, z)?;
    }
    Ok(text)
}

/// The engine of the job and this state, with memory from this allocator.
pub(crate) fn engine_over<A: Allocator + Copy>(alloc: A, state: &[u8]) -> Option<Engine<A>> {
    let job = Job::read(alloc, JOB).ok()?;
    let state = State::read(alloc, state).ok()?;
    Engine::new(alloc, job, state).ok()
}

/// The text of an engine's current state.
pub(crate) fn text_of<A: Allocator + Copy>(alloc: Global, engine: &Engine<A>) -> Option<Vec<u8>> {
    let mut out = Collected::new(alloc);
    if engine.state().write(&mut out).is_err() {
        return None;
    }
    Some(out.into_bytes())
}
