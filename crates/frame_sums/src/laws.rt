//! Laws of the sums over a frame's pairs: what some of them are over all pairs.

ghost use Rattle.std.specs.Prelude.{◌≡◌, ◌<ℤ◌};
ghost use Rattle.integrator.specs.Frames.{Dynamics, Frame};
ghost use Rattle.frame_sums.specs.FrameSums.{core_pairs_of, least_square_of, pair_sums_of, virial_of};

/// The virial of a frame is the sum of the virials of all its pairs.
pub fn virials_of_all_pairs_are_summed()
    ensures { (d : Dynamics) (frame : Frame) → (pair_sums_of d frame).virial ≡ virial_of d frame }
{}

/// The least square is the square of the distance of the nearest interacting pair.
pub fn nearest_of_all_pairs_is_found()
    ensures { (d : Dynamics) (frame : Frame) → (pair_sums_of d frame).nearest ≡ least_square_of d frame }
{}

/// All pairs nearer than the core are counted, since each of them interacts.
pub fn pairs_in_core_are_counted()
    ensures { (d : Dynamics) (frame : Frame) → d.core <ℤ d.cutoff
        → (pair_sums_of d frame).core_pairs ≡ core_pairs_of d frame }
{}
