//! Pairs of results.
ghost use Rattle.std.specs.Prelude.{◌≡◌, Ok, IfOk};
ghost use Rattle.fallible.specs.Failures.{paired};

/// Both values, or the error of the first result that has none.
pub fn pair<S: Drop, T: Drop, E: Drop>(
    first: Result<S, E>,
    second: Result<T, E>,
) -> Result<(S, T), E>
    ensures value { result ≡ paired first second }
    ensures both { IfOk result (λ both. (first ≡ Ok both.0) × (second ≡ Ok both.1)) }
{
    match (first, second) {
        (Ok(first), Ok(second)) => Ok((first, second)),
        (Err(fault), _) => Err(fault),
        (_, Err(fault)) => Err(fault),
    }
}
