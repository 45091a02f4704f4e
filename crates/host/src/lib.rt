//! The program `pairmd` as a process: the system's files, output streams and arguments.
#![tactic(auto)]

mod files;
mod outputs;
mod processes;
mod stack;

pub use files::{HostFiles, HostLines, read_all};
pub use outputs::Stream;
pub use processes::{execute_words, run_process, words};
