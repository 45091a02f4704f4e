//! Laws of forces and of momentum.

ghost use Rattle.run_laws.specs.Momentum.{AtomsKeepMomentum, BalancedKeepMomentum, NewtonsThirdLaw, StepsAreBalanced, StepsKeepMomentum};

/// Newton's third law: the force of a pair on one atom is the negative of its force on the other. Hence the exact
/// forces on all atoms of a frame sum to zero along each axis, whatever the pair forces are, and so do the forces in a
/// step from two frames to the next.
pub fn newtons_third_law()
    ensures forces { NewtonsThirdLaw }
    ensures steps { StepsAreBalanced }
{}

/// Conservation of momentum to within rounding. Along an axis, the sum of mass times displacement over all atoms has a
/// magnitude of at most half their total mass, in mass times grid units, since each displacement is rounded to the
/// nearest grid unit. Without rounding the sum would be zero, by Newton's third law.
pub fn momentum_is_kept_within()
    ensures balanced { BalancedKeepMomentum }
    ensures steps { StepsKeepMomentum }
    ensures atoms { AtomsKeepMomentum }
{}
