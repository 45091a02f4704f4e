//! The intervals of locals, by number. The list only reaches to the highest local that was set; all others may be
//! unset.

ghost use Rattle.std.specs.Prelude.{◌≡◌, ◌≢◌, ℕ, None, Some, slice_index_or, OnOk};

use interval_domain::Span;
use std::alloc::{AllocError, Allocator};

/// The interval of a local; `None` if the local may be unset.
pub fn local_span(locals: &[Option<Span>], local: usize) -> Option<Span>
    ensures { result ≡ slice_index_or locals.now local None }
{
    locals.get(local).copied().flatten()
}

/// Sets the interval of a local, extending the list if necessary.
pub fn set_local<A: Allocator>(
    locals: &mut Vec<Option<Span>, A>,
    local: usize,
    span: Span,
) -> Result<(), AllocError>
    ensures here { OnOk result (slice_index_or locals.new.items local None ≡ Some span) }
    ensures others { OnOk result ((j : ℕ) → j ≢ local → slice_index_or locals.new.items j None ≡ slice_index_or locals.old.items j None) }
{
    while locals.len() <= local {
        locals.push(None)?;
    }
    locals[local] = Some(span);
    Ok(())
}
