//! Laws of states' texts: each text has a result, and each fault has its cause in the texts of states.

ghost use Rattle.state.specs.Causes.{CausesAreFaults, FaultsHaveCauses};
ghost use Rattle.state.specs.StateFaults.{ReadsAlways};

/// Each text is a state's or has a fault. It has no second result (`once` of `State::read`).
pub fn reads_state_always()
    ensures { ReadsAlways }
{}

/// A fault's cause is in the texts of states. The lines before a bad line begin some state's text, and with the bad line
/// they begin none. The lines of a truncated text begin some state's text. Trailing bytes follow a state's text.
pub fn faults_have_causes()
    ensures { FaultsHaveCauses }
{}

/// A text with the cause of a fault has this fault. So it has the cause of no other fault.
pub fn causes_are_faults()
    ensures { CausesAreFaults }
{}
