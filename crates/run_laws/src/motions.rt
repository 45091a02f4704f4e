//! Laws of the steps of the run specification, as motions of two frames.

ghost use Rattle.run_laws.specs.Motions.{AcceptedAreFollowed, AcceptedRecur, FramesRecur, OneFuture, OnePast, StepsReverse};

/// Two frames of the same atoms have one past and one future: k steps lead to them from only one pair of frames, and
/// from them to only one. A step is one-to-one: it keeps the number of pairs of frames, as Liouville's theorem says of
/// volumes of phase space.
pub fn one_past()
    ensures past { OnePast }
    ensures future { OneFuture }
{}

/// Time reversal: k steps lead from two frames to two others exactly if k steps lead from the others, the later frame
/// first, back to the first two, the later frame first.
pub fn steps_reverse()
    ensures { StepsReverse }
{}

/// Poincare recurrence, exact and from every start: if any two frames of n atoms have a next frame, some number of
/// steps, at most 2^(192 n), leads from any two frames back to them. The reason is that frames are finitely many and a
/// step is one-to-one.
pub fn frames_recur()
    ensures { FramesRecur }
{}

/// Recurrence for every accepted job and state: any two frames with the state's number of atoms have a next frame,
/// wherever their atoms are, and the state's own two frames recur.
pub fn accepted_frames_recur()
    ensures followed { AcceptedAreFollowed }
    ensures recur { AcceptedRecur }
{}
