//! The line of a step, which begins the text of a quantity.

ghost use Rattle.std.specs.Prelude.{◌≡◌};
ghost use Rattle.line_text.specs.Parts.{ended};
ghost use Rattle.state.specs.StateText.{step_line};

use line_text::{Line, put, put_integer};

/// The line of a step.
pub(crate) fn step_line(step: i64) -> Line
    ensures { result.items ≡ ended (step_line step) }
{
    let mut line = Line::new();
    put(&mut line, b"step ");
    put_integer(&mut line, step);
    put(&mut line, b"\n");
    line
}
