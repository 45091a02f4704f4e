//! Outputs that fail.

use std::alloc::Global;
use std::io::{self, Write};

/// An output that keeps its bytes. If it never fails, it takes all bytes of a write, otherwise one at a time.
#[derive(Drop)]
pub(crate) struct Output {
    pub(crate) bytes: Vec<u8>,
    /// The number of bytes that the output takes before it fails; `None` if it never fails.
    left: Option<u64>,
    fails_once: bool,
    /// Whether a write failed.
    pub(crate) has_failed: bool,
}

impl Output {
    /// An output that takes `left` bytes and then fails at the next write, or at each write; `None` if it never fails.
    pub(crate) fn new(alloc: Global, left: Option<u64>, fails_once: bool) -> Output {
        Output {
            bytes: Vec::new(alloc),
            left,
            fails_once,
            has_failed: false,
        }
    }
}

impl Write for Output {
    fn write(&mut self, bytes: &[u8]) -> io::Result<usize> {
        let Some(left) = self.left else {
            self.bytes.extend_from_slice(bytes)?;
            return Ok(bytes.len());
        };
        let Some(first) = bytes.first() else {
            return Ok(0);
        };
        if left > 0 {
            self.bytes.push(*first)?;
            self.left = Some(left - 1);
            return Ok(1);
        }
        self.has_failed = true;
        if self.fails_once {
            self.left = Some(u64::MAX);
        }
        Err(io::ErrorKind::BrokenPipe.into())
    }

    fn flush(&mut self) -> io::Result<()> {
        Ok(())
    }
}
