//! Output streams.

ghost use Rattle.std.specs.Prelude.{◌≡◌, ◌+◌, ◌-◌, ◌^◌, ◌<◌, ◌≤◌, IfOk, None, OnErr, length};
ghost use Rattle.std.specs.Io.KnownBytes.{WriteAppends};

use fallible::{Out, OutFault};
use std::io::Write;

/// An output over a writer, such as standard output. As an output its accepted bytes are unknown; the contract of
/// `take` relates them to the contents of the writer.
#[derive(Drop)]
pub struct Stream<W: Write> {
    writer: W,
    failures: u64,
}

impl<W: Write> Stream<W> {
    /// An output over this writer, without failed writes.
    pub fn new(writer: W) -> Self
        ensures { result.failures ≡ 0 }
    {
        Stream {
            writer,
            failures: 0,
        }
    }

    /// Writes a prefix of the bytes to the writer, and returns the length of the prefix, which is at least 1 unless
    /// there are no bytes.
    ///
    /// `OutFault`: the writer failed, or accepted none of one or more bytes. The count of failures is then one higher.
    fn take(&mut self, bytes: &[u8]) -> Result<usize, OutFault>
        requires { self.old.failures < 2 ^ 64 - 1 }
        ensures held { WriteAppends (W.contents self.old.writer) (W.contents self.new.writer) result bytes.now }
        ensures within { IfOk result (λ n. (n ≤ length bytes.now) × (0 < length bytes.now → 0 < n)) }
        ensures count { IfOk result (λ _. self.new.failures ≡ self.old.failures) }
        ensures fault_count { OnErr result (self.new.failures ≡ self.old.failures + 1) }
    {
        match self.writer.write(bytes) {
            Ok(taken) if taken > 0 || bytes.is_empty() => Ok(taken),
            _ => {
                self.failures += 1;
                Err(OutFault)
            }
        }
    }
}

impl<W: Write> Out for Stream<W> {
    ghost output = { λ s. record { taken = None; failed = s.failures } };

    fn write(&mut self, bytes: &[u8]) -> Result<usize, OutFault> {
        self.take(bytes)
    }

    fn failures(&self) -> u64 {
        self.failures
    }
}
