//! Why a derivative has no value.

use fixed::Fault;

/// An operation of a kernel's code without a value.
#[derive(Clone, Copy, PartialEq, Eq, Debug)]
pub(crate) struct SlopeFault {
    /// The instruction index of the operation.
    pub pc: u32,
    /// Why the operation has no value.
    pub fault: Fault,
}
