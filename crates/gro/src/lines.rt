//! Lines of a GRO file.

ghost use Rattle.std.specs.Prelude.{◌≡◌, ◌<◌, [], length, IfErr, IfOk};
ghost use Rattle.gro.specs.GroFaults.{is_ended};
ghost use Rattle.gro.specs.GroText.{IsLine};
ghost use Rattle.gro.specs.declared.faults.GroFault.TheVariants.{Truncated};

use crate::faults::GroFault;
use line_text::{cut, trim_returns};

/// A line of a file.
#[derive(Clone, Copy)]
pub struct InputLine<'a> {
    /// Its bytes, without its LF and the CRs before it.
    pub text: &'a [u8],
    /// Whether it ends in LF. Only the last line may lack it.
    pub ended: bool,
}

/// The next line, and the bytes after it.
///
/// `Truncated` if no bytes are left.
pub fn next_line(bytes: &[u8]) -> Result<(InputLine<'_>, &[u8]), GroFault>
    ensures line { IfOk result (λ x. IsLine bytes.now x.0.text.now x.1.now) }
    ensures ended { IfOk result (λ x. x.0.ended ≡ is_ended bytes.now) }
    ensures none { IfErr result (λ fault. (bytes.now ≡ []) × (fault ≡ Truncated)) }
    ensures shorter { IfOk result (λ x. length x.1.now < length bytes.now) }
{
    if bytes.is_empty() {
        return Err(GroFault::Truncated);
    }
    match cut(b'\n', bytes) {
        Some((text, rest)) => Ok((
            InputLine {
                text: trim_returns(text),
                ended: true,
            },
            rest,
        )),
        None => Ok((
            InputLine {
                text: trim_returns(bytes),
                ended: false,
            },
            b"",
        )),
    }
}
