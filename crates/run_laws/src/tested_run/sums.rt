//! Sums of forces: the force on each atom after some pairs.

ghost use Rattle.std.specs.Prelude.{◌≡◌, ℕ, ◌<◌, ◌+◌, ◌^◌, ◌≤◌, ◌+ℤ◌, unsigned_abs, length, replicate};
ghost use Rattle.std.specs.List.{All};
ghost use Rattle.ring_box.specs.Forces.{no_force, IsWithin};
ghost use Rattle.integrator.specs.Forces.{negative, plus};
ghost use Rattle.run_laws.specs.Adding.{with_force, with_pair};

use ring_box::Vector;

/// The zero force, the initial value of every sum.
pub(crate) const NO_FORCE: Vector<i128> = Vector { x: 0, y: 0, z: 0 };

fn add(a: i128, b: i128) -> i128
    requires a { unsigned_abs a ≤ 2 ^ 100 }
    requires b { unsigned_abs b ≤ 2 ^ 63 }
    ensures { result ≡ a +ℤ b }
{
    a + b
}

fn sum(f: Vector<i128>, g: Vector<i128>) -> Vector<i128>
    requires f { IsWithin (2 ^ 100) f }
    requires g { IsWithin (2 ^ 63) g }
    ensures { result ≡ plus f g }
{
    Vector {
        x: add(f.x, g.x),
        y: add(f.y, g.y),
        z: add(f.z, g.z),
    }
}

fn opposite_force(force: Vector<i128>) -> Vector<i128>
    requires { IsWithin (2 ^ 63) force }
    ensures value { result ≡ negative force }
    ensures within { IsWithin (2 ^ 63) result }
{
    Vector {
        x: -force.x,
        y: -force.y,
        z: -force.z,
    }
}

fn add_force(sums: &mut [Vector<i128>], atom: usize, force: Vector<i128>)
    requires atom { atom < length sums.old }
    requires room { All (IsWithin (2 ^ 100)) sums.old }
    requires force { IsWithin (2 ^ 63) force }
    ensures value { sums.new ≡ with_force sums.old atom force }
    ensures within { (b : ℕ) → All (IsWithin b) sums.old → All (IsWithin (b + 2 ^ 63)) sums.new }
{
    let old = sums[atom];
    sums[atom] = sum(old, force);
}

/// Adds the force of a pair to the sums: `force` to the lower atom, its negative to the higher atom.
pub(crate) fn add_pair(sums: &mut [Vector<i128>], low: usize, high: usize, force: Vector<i128>)
    requires low { low < length sums.old }
    requires high { high < length sums.old }
    requires room { All (IsWithin (2 ^ 99)) sums.old }
    requires force { IsWithin (2 ^ 63) force }
    ensures value { sums.new ≡ with_pair sums.old (low, high) force }
    ensures within { (b : ℕ) → All (IsWithin b) sums.old → All (IsWithin (b + 2 ^ 64)) sums.new }
{
    add_force(sums, low, force);
    add_force(sums, high, opposite_force(force));
}

/// Sets all sums to zero.
pub(crate) fn clear(sums: &mut [Vector<i128>])
    ensures { sums.new ≡ replicate (length sums.old) no_force }
{
    sums.fill(NO_FORCE);
}
