//! Joins of intervals.

ghost use Rattle.std.specs.Prelude.{◌≡◌, length};
ghost use Rattle.verifier.specs.Frames.{WidensLocal, WidensLocals, WidensSpans};

use crate::locals::local_span;
use interval_domain::{Span, hull};

/// Extends each interval to the smallest that also contains the other at its index.
pub fn widen_spans(spans: &mut [Span], others: &[Span])
    requires { length spans.old ≡ length others.now }
    ensures { WidensSpans spans.old others.now spans.new }
{
    for k in 0..spans.len() {
        spans[k] = hull(spans[k], others[k]);
    }
}

/// The join of a local's intervals on two paths: unset if it is unset on one of them.
fn widened(local: Option<Span>, other: Option<Span>) -> Option<Span>
    ensures { WidensLocal local other result }
{
    match (local, other) {
        (Some(local), Some(other)) => Some(hull(local, other)),
        _ => None,
    }
}

/// Joins the intervals of locals. Locals past the end of a list are unset.
pub fn widen_locals(locals: &mut [Option<Span>], others: &[Option<Span>])
    ensures { WidensLocals locals.old others.now locals.new }
{
    for k in 0..locals.len() {
        locals[k] = widened(locals[k], local_span(others, k));
    }
}
