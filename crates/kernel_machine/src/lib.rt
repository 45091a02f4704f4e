//! Accepted code, run one instruction at a time on a stack: for one pair, or for a batch of up to 128 pairs at once,
//! each lane on its own path. Neither makes a check at run time: the verifier's certificate proves that no instruction
//! traps. Both give the value that the checked interpreter of `kernel_code` gives. The run of a pair also counts its
//! instructions.
//!
//! In a batch, jumps only go forwards, so the lowest instruction index of any lane is executed next, for all lanes that
//! wait there, up to a jump or to the index at which the next lanes wait. No instruction is executed for a lane that
//! isn't on its path, so a lane takes exactly the machine's number of instructions, and the certified limits hold. All
//! lanes at an index have stacks of the same height, so each height of the stack is a row. The code isn't made into
//! flat steps: values at jumps and where paths meet would each need a row, and the proof would cost more than it saves.
#![tactic(auto)]

mod batches;
mod lane_turns;
mod listed;
mod paths;
mod running;
mod slots;
mod stacks;
mod turns;
mod waiting;

pub use paths::run_paths;
pub use running::run;
pub use stacks::Stack;
