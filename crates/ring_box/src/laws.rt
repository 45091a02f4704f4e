//! Laws of the geometry.

ghost use Rattle.ring_box.specs.Moves.{WereNear};

/// Two atoms that are near were near, within a wider reach, in each frame in which both were little elsewhere. So the
/// pairs that may interact can be listed ahead.
#[tactic(auto, using(crate::proofs::MoveLemmas::were_near))]
pub fn were_near()
    ensures { WereNear }
{}
