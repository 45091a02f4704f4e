//! Tests of libraries that no command can make: workers that run at the same time, test hooks, every order of events of a
//! round, runs with every operation tested, traps of the tested machine, verdicts on ranges that no job has, and long
//! texts in memory.
//! These tests are a crate of their own, since a crate that contains its tests is proved twice.
#![tactic(auto)]

#[cfg(test)]
mod fixtures;
#[cfg(test)]
mod gates;
#[cfg(test)]
mod listed;
#[cfg(test)]
mod orders;
#[cfg(test)]
mod outputs;
#[cfg(test)]
mod pools;
#[cfg(test)]
mod recorded;
#[cfg(test)]
mod tested_runs;
#[cfg(test)]
mod traps;
#[cfg(test)]
mod verdicts;
