//! Forces of many pairs, one lane for each pair.

ghost use Rattle.std.specs.Prelude.{◌≡◌, ◌+◌, ◌<◌, ◌≤◌};

use crate::float_rows::put_four;
use crate::vectors::Vector;
use float_filters::FourForces;

/// The forces on the first atoms of at most 128 pairs.
#[derive(Drop)]
pub struct PairForces {
    pub(crate) x: [i64; 128],
    pub(crate) y: [i64; 128],
    pub(crate) z: [i64; 128],
}

impl PairForces {
    ghost use Rattle.ring_box.specs.PairForces.{IsWithForce, IsWithForces, force_in};

    /// Forces of zero.
    pub fn new() -> PairForces {
        PairForces {
            x: [0; 128],
            y: [0; 128],
            z: [0; 128],
        }
    }

    /// The force on the first atom of the pair with the index `l`.
    #[inline(always)]
    pub fn force(&self, l: usize) -> Vector<i64>
        requires { l < 128 }
        ensures { result ≡ force_in self.now l }
    {
        Vector {
            x: self.x[l],
            y: self.y[l],
            z: self.z[l],
        }
    }

    /// Replaces the force with the index `l`.
    pub(crate) fn put(&mut self, l: usize, force: Vector<i64>)
        requires { l < 128 }
        ensures { IsWithForce self.old l force self.new }
    {
        self.x[l] = force.x;
        self.y[l] = force.y;
        self.z[l] = force.z;
    }

    /// Replaces four forces, from the index `l` on.
    #[inline(always)]
    pub(crate) fn put_four(&mut self, l: usize, forces: FourForces)
        requires { l + 4 ≤ 128 }
        ensures { IsWithForces self.old l forces self.new }
    {
        put_four(&mut self.x, l, forces.x);
        put_four(&mut self.y, l, forces.y);
        put_four(&mut self.z, l, forces.z);
    }
}
