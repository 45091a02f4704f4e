//! Sums over the atoms of two or three frames.

ghost use Rattle.std.specs.Prelude.{◌≡◌, ◌*◌, ◌^◌, ◌<◌, ◌≤◌, ◌+◌, pos, ◌+ℤ◌, ◌*ℤ◌, unsigned_abs, length};
ghost use Rattle.std.specs.List.{All};
ghost use Rattle.ring_box.specs.Axes.{along};
ghost use Rattle.ring_box.specs.Distances.{square};
ghost use Rattle.ring_box.specs.Forces.{IsWithin};
ghost use Rattle.ring_box.specs.Places.{difference};
ghost use Rattle.observables.specs.Bounds.{AreBelow};
ghost use Rattle.observables.specs.Sums.{displacement, moments_along, moments_between, products_about, products_along, squares_about, squares_along};

use ring_box::{Axis, Place3, Vector, diff};

// The grid coordinate along an axis.
fn along(axis: Axis, place: Place3) -> u32
    ensures { result ≡ along axis place }
{
    match axis {
        Axis::X => place.x,
        Axis::Y => place.y,
        Axis::Z => place.z,
    }
}

// A mass times the square of the displacement from `from` to `to`.
fn weighed_square(mass: u32, from: u32, to: u32) -> u128
    requires { mass ≤ 100000000 }
    ensures value { result ≡ mass * square (difference to from) }
    ensures bound { result ≤ 2 ^ 89 }
{
    let places = u128::from(diff(to, from).unsigned_abs());
    u128::from(mass) * (places * places)
}

// A mass times the displacement from `from` to `to`.
fn weighed(mass: u32, from: u32, to: u32) -> i128
    requires { mass ≤ 100000000 }
    ensures value { result ≡ pos mass *ℤ difference to from }
    ensures bound { unsigned_abs result ≤ 2 ^ 58 }
{
    i128::from(mass) * i128::from(diff(to, from))
}

// The displacement along an axis.
fn displacement(axis: Axis, from: Place3, to: Place3) -> i64
    ensures value { result ≡ displacement axis from to }
    ensures bound { unsigned_abs result ≤ 2 ^ 31 }
{
    i64::from(diff(along(axis, to), along(axis, from)))
}

// The product of the displacements along two axes.
fn product(a: Axis, b: Axis, from: Place3, to: Place3) -> i64
    ensures value { result ≡ displacement a from to *ℤ displacement b from to }
    ensures bound { unsigned_abs result ≤ 2 ^ 62 }
{
    displacement(a, from, to) * displacement(b, from, to)
}

// A mass times the product of the displacements along two axes.
fn weighed_along(a: Axis, b: Axis, mass: u32, from: Place3, to: Place3) -> i128
    requires { mass ≤ 100000000 }
    ensures value { result ≡ pos mass *ℤ (displacement a from to *ℤ displacement b from to) }
    ensures bound { unsigned_abs result ≤ 2 ^ 89 }
{
    i128::from(mass) * i128::from(product(a, b, from, to))
}

// The sum over the atoms of mass times squared displacement along an axis.
fn squares_along(axis: Axis, masses: &[u32], from: &[Place3], to: &[Place3]) -> u128
    requires from { length from.now ≡ length masses.now }
    requires to { length to.now ≡ length masses.now }
    requires few { length masses.now ≤ 65536 }
    requires light { All (λ m. m ≤ 100000000) masses.now }
    ensures value { result ≡ squares_along axis masses.now from.now to.now }
    ensures bound { result ≤ 2 ^ 105 }
{
    let mut sum = 0;
    for i in 0..masses.len() {
        sum += weighed_square(masses[i], along(axis, from[i]), along(axis, to[i]));
    }
    sum
}

// The sum over the atoms of mass times the product of the displacements along two axes.
fn products_along(a: Axis, b: Axis, masses: &[u32], from: &[Place3], to: &[Place3]) -> i128
    requires from { length from.now ≡ length masses.now }
    requires to { length to.now ≡ length masses.now }
    requires few { length masses.now ≤ 65536 }
    requires light { All (λ m. m ≤ 100000000) masses.now }
    ensures value { result ≡ products_along a b masses.now from.now to.now }
    ensures bound { unsigned_abs result ≤ 2 ^ 105 }
{
    let mut sum = 0;
    for i in 0..masses.len() {
        sum += weighed_along(a, b, masses[i], from[i], to[i]);
    }
    sum
}

// The sum over the atoms of mass times displacement along an axis.
fn moments_along(axis: Axis, masses: &[u32], from: &[Place3], to: &[Place3]) -> i128
    requires from { length from.now ≡ length masses.now }
    requires to { length to.now ≡ length masses.now }
    requires few { length masses.now ≤ 65536 }
    requires light { All (λ m. m ≤ 100000000) masses.now }
    ensures value { result ≡ moments_along axis masses.now from.now to.now }
    ensures bound { unsigned_abs result ≤ 2 ^ 74 }
{
    let mut sum = 0;
    for i in 0..masses.len() {
        sum += weighed(masses[i], along(axis, from[i]), along(axis, to[i]));
    }
    sum
}

// The sum over the atoms of mass times squared displacement along an axis, over the steps before and after `current`.
fn squares_about(
    axis: Axis,
    masses: &[u32],
    previous: &[Place3],
    current: &[Place3],
    next: &[Place3],
) -> u128
    requires previous { length previous.now ≡ length masses.now }
    requires current { length current.now ≡ length masses.now }
    requires next { length next.now ≡ length masses.now }
    requires few { length masses.now ≤ 65536 }
    requires light { All (λ m. m ≤ 100000000) masses.now }
    ensures value { result ≡ squares_along axis masses.now previous.now current.now + squares_along axis masses.now current.now next.now }
    ensures bound { result ≤ 2 ^ 106 }
{
    squares_along(axis, masses, previous, current) + squares_along(axis, masses, current, next)
}

/// For each axis, the sum over the atoms of mass times squared displacement, over the steps before and after `current`.
/// Displacements are in grid units, along the shorter way around the periodic box.
///
/// All frames must have one atom per mass, at most 65,536 atoms. Masses are in 10^-5 u and at most 100,000,000.
pub fn squares(
    masses: &[u32],
    previous: &[Place3],
    current: &[Place3],
    next: &[Place3],
) -> Vector<u128>
    requires previous { length previous.now ≡ length masses.now }
    requires current { length current.now ≡ length masses.now }
    requires next { length next.now ≡ length masses.now }
    requires few { length masses.now ≤ 65536 }
    requires light { All (λ m. m ≤ 100000000) masses.now }
    ensures value { result ≡ squares_about masses.now previous.now current.now next.now }
    ensures bound { AreBelow (2 ^ 107) result }
{
    Vector {
        x: squares_about(Axis::X, masses, previous, current, next),
        y: squares_about(Axis::Y, masses, previous, current, next),
        z: squares_about(Axis::Z, masses, previous, current, next),
    }
}

/// For each axis, the sum over the atoms of mass times displacement in the step before `current`. Displacements are in
/// grid units, along the shorter way around the periodic box.
///
/// Both frames must have one atom per mass, at most 65,536 atoms. Masses are in 10^-5 u and at most 100,000,000.
pub fn momentum(masses: &[u32], previous: &[Place3], current: &[Place3]) -> Vector<i128>
    requires previous { length previous.now ≡ length masses.now }
    requires current { length current.now ≡ length masses.now }
    requires few { length masses.now ≤ 65536 }
    requires light { All (λ m. m ≤ 100000000) masses.now }
    ensures value { result ≡ moments_between masses.now previous.now current.now }
    ensures bound { IsWithin (2 ^ 74) result }
{
    Vector {
        x: moments_along(Axis::X, masses, previous, current),
        y: moments_along(Axis::Y, masses, previous, current),
        z: moments_along(Axis::Z, masses, previous, current),
    }
}

// The sum over the atoms of mass times the product of the displacements along two axes, over the steps before and after
// `current`.
fn products_about(
    a: Axis,
    b: Axis,
    masses: &[u32],
    previous: &[Place3],
    current: &[Place3],
    next: &[Place3],
) -> i128
    requires previous { length previous.now ≡ length masses.now }
    requires current { length current.now ≡ length masses.now }
    requires next { length next.now ≡ length masses.now }
    requires few { length masses.now ≤ 65536 }
    requires light { All (λ m. m ≤ 100000000) masses.now }
    ensures value { result ≡ products_along a b masses.now previous.now current.now
        +ℤ products_along a b masses.now current.now next.now }
    ensures bound { unsigned_abs result ≤ 2 ^ 106 }
{
    products_along(a, b, masses, previous, current) + products_along(a, b, masses, current, next)
}

/// For each axis, the sum over the atoms of mass times the product of the displacements along the two other axes, over
/// the steps before and after `current`. Displacements are in grid units, along the shorter way around the periodic box.
///
/// All frames must have one atom per mass, at most 65,536 atoms. Masses are in 10^-5 u and at most 100,000,000.
pub fn products(
    masses: &[u32],
    previous: &[Place3],
    current: &[Place3],
    next: &[Place3],
) -> Vector<i128>
    requires previous { length previous.now ≡ length masses.now }
    requires current { length current.now ≡ length masses.now }
    requires next { length next.now ≡ length masses.now }
    requires few { length masses.now ≤ 65536 }
    requires light { All (λ m. m ≤ 100000000) masses.now }
    ensures value { result ≡ products_about masses.now previous.now current.now next.now }
    ensures bound { IsWithin (2 ^ 107) result }
{
    Vector {
        x: products_about(Axis::Y, Axis::Z, masses, previous, current, next),
        y: products_about(Axis::Z, Axis::X, masses, previous, current, next),
        z: products_about(Axis::X, Axis::Y, masses, previous, current, next),
    }
}
