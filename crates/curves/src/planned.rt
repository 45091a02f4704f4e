//! A job's potential, and the plan for its tables.
use crate::plans::CurvePlan;
use crate::potentials::Potential;
use job::Job;
use std::alloc::Allocator;

/// What the tables of a job's potential are made from.
#[derive(Drop)]
pub(crate) struct PlannedTables<'a, A: Allocator + Copy> {
    pub(crate) alloc: A,
    pub(crate) job: &'a Job<A>,
    pub(crate) potential: &'a Potential<A>,
    pub(crate) plan: &'a CurvePlan,
}
