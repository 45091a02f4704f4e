//! Law of GRO files: each text has a result.

ghost use Rattle.gro.specs.GroFaults.{ReadsAlways};

/// Each text represents frames or has a fault. It has no second result (`once` of `read_frames`).
pub fn reads_frames_always()
    ensures { ReadsAlways }
{}
