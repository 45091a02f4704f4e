//! Law of listings: each text has a result.

ghost use Rattle.kernel_code.specs.Listing.{ParsesAlways};

/// Each text parses as code or has an error. It has no second result (`once` of `read`).
pub fn parses_always()
    ensures { ParsesAlways }
{}
