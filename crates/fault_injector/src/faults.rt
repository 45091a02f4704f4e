//! What fails while a command runs.

/// A fault of a command's memory or outputs, at an index.
#[derive(Clone, Copy, PartialEq, Eq)]
pub(crate) enum Fault {
    /// Nothing fails.
    Nothing,
    /// The request for memory with the index fails. The argument parser's requests aren't counted.
    Request,
    /// Standard output takes as many bytes as the index, and fails at each write after them.
    Output,
    /// Standard error takes as many bytes as the index, and fails at each write after them.
    Error,
    /// Standard error takes as many bytes as the index, fails at the next write, and takes all bytes after it.
    ErrorOnce,
}

impl Fault {
    /// The fault with this name.
    pub(crate) fn named(name: &str) -> Option<Fault> {
        match name {
            "nothing" => Some(Fault::Nothing),
            "request" => Some(Fault::Request),
            "output" => Some(Fault::Output),
            "error" => Some(Fault::Error),
            "error-once" => Some(Fault::ErrorOnce),
            _ => None,
        }
    }
}
