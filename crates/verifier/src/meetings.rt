//! Abstract states at the instructions, and their join.

ghost use Rattle.std.specs.Prelude.{◌≡◌, ◌<◌, false, replicate, length};
ghost use Rattle.verifier.specs.Meetings.{IsJoin, IsJoinAt};

use crate::local_sets::Locals;

/// An abstract state that all paths to an instruction share.
#[derive(Clone, Copy)]
pub struct Shape {
    /// The number of values on the stack, on every path.
    pub height: u32,
    /// The locals that are set on every path.
    pub set: Locals,
    /// The number of instructions on the longest path.
    pub steps: u32,
}

impl Shape {
    /// The abstract state before the first instruction.
    pub fn start() -> Shape
        ensures height { result.height ≡ 0 }
        ensures set { result.set ≡ replicate 256 false }
        ensures steps { result.steps ≡ 0 }
    {
        Shape {
            height: 0,
            set: Locals::new(),
            steps: 0,
        }
    }
}

/// The join of the abstract states of all paths that reach an instruction.
#[derive(Clone, Copy)]
pub enum Meeting {
    /// No path reaches it.
    Nothing,
    /// All paths have the same stack height.
    Level(Shape),
    /// Paths have different stack heights.
    Uneven,
}

impl Meeting {
    /// The join with one more abstract state.
    pub fn joined(&self, shape: &Shape) -> Meeting
        ensures { IsJoin self.now shape.now result }
    {
        match self {
            Meeting::Nothing => Meeting::Level(*shape),
            Meeting::Level(held) if held.height == shape.height => Meeting::Level(Shape {
                height: shape.height,
                set: held.set.intersection(&shape.set),
                steps: held.steps.max(shape.steps),
            }),
            Meeting::Level(_) | Meeting::Uneven => Meeting::Uneven,
        }
    }
}

/// Joins an abstract state to the state at instruction `to`.
pub fn join(meetings: &mut [Meeting], to: usize, shape: &Shape)
    requires { to < length meetings.old }
    ensures { IsJoinAt meetings.old to shape.now meetings.new }
{
    meetings[to] = meetings[to].joined(shape);
}
