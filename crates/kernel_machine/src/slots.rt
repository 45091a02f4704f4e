//! The operand stack: an array of slots, of which the first `height` are in use. An `arrayvec` would check its length
//! at each push and pop, which this machine must not.

ghost use Rattle.std.specs.Prelude.{◌≡◌, ◌+◌, ◌-◌, ◌<◌, ◌≤◌, ◌∷◌, length};
ghost use Rattle.kernel_machine.specs.Standing.{stack_of};

use fixed::Fx;

/// Pushes a value, and returns the new height.
#[inline]
pub fn push(slots: &mut [Fx], height: usize, value: Fx) -> usize
    requires { height < length slots.old }
    ensures height { result ≡ height + 1 }
    ensures stack { stack_of result slots.new ≡ value ∷ stack_of height slots.old }
{
    slots[height] = value;
    height + 1
}

/// The value on top.
#[inline]
pub fn top(slots: &[Fx], height: usize) -> Fx
    requires some { 0 < height }
    requires within { height ≤ length slots.now }
    ensures { stack_of height slots.now ≡ result ∷ stack_of (height - 1) slots.now }
{
    slots[height - 1]
}
