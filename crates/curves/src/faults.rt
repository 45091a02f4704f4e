//! Faults of tables that are written.

use fallible::OutFault;
use potential::EnergyFault;
use std::alloc::Allocator;

/// Why not all tables of a job's potential were written.
#[derive(Drop)]
pub enum CurveFault<A: Allocator> {
    /// The job's energy or code is rejected. The output is unchanged.
    Rejected(EnergyFault<A>),
    /// Memory ran out. The tables before those of some two types are written, each whole.
    Memory,
    /// A write failed. The tables before those of some two types are written, and a prefix of the tables of these two.
    Out(OutFault),
}
