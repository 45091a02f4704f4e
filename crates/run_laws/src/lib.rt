//! Laws: of runs, for every job and state, and of rational numbers; and a run with every instruction tested. No running
//! code calls these functions. Those of laws compute nothing: the contract is the law.
//!
//! The laws of runs use only the relations of `engine/specs/RunSpecification`, so they hold however the engine's code
//! changes.
#![tactic(auto)]

mod engine_steps;
mod exact_fractions;
mod momentum;
mod motions;
mod run_texts;
mod symmetries;
mod tested_run;

pub use engine_steps::{steps_add, steps_return};
pub use exact_fractions::{fractions_are_ordered, fractions_have_derivatives};
pub use momentum::{momentum_is_kept_within, newtons_third_law};
pub use motions::{accepted_frames_recur, frames_recur, one_past, steps_reverse};
pub use run_texts::{runs_are_accepted, runs_are_told, runs_return, runs_stay_safe};
pub use symmetries::{axes, translations};
pub use tested_run::{
    KernelFault, StartFault, TestedFault, TestedRunFault, outcomes_are_ends, run_bytes_checked,
    starts_always, starts_once,
};
