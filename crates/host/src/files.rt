//! The files of the operating system, and standard input.

ghost use Rattle.std.specs.Prelude.{◌≡◌, IfOk, IfSome, None, OnOk};
ghost use Rattle.std.specs.Io.KnownBytes.{IsAtEnd};
ghost use Rattle.std.specs.IoError.{error_kind};
ghost use Rattle.state.specs.Sources.{TakesLine};
ghost use Rattle.host.specs.SystemFaults.{read_fault_of};

use cli::Files;
use state::{Lines, ReadFault};
use std::alloc::{Allocator, Global};
use std::io::{BufRead, BufReader, Input, Read};
use std::{fs, io};

/// The path of standard input. A file of this name is `./-`.
const STANDARD_INPUT: &str = "-";

/// The files of the operating system, and standard input, whose path is `-`.
#[derive(Clone, Copy)]
pub struct HostFiles<'a, R: fs::Files + Input + AllocGlobal> {
    system: &'a R,
}

impl<'a, R: fs::Files + Input + AllocGlobal> HostFiles<'a, R> {
    /// The files of this runtime.
    pub fn new(system: &'a R) -> Self
        ensures { result.system ≡ system.entry }
    {
        HostFiles { system }
    }
}

impl<'a, R: fs::Files + Input + AllocGlobal> Files for HostFiles<'a, R> {
    ghost requested = { λ _. None };

    ghost held = { λ _ _. None };

    type Source = HostLines<R>;

    fn read<A: Allocator + Copy>(&mut self, alloc: A, path: &str) -> Result<Vec<u8, A>, ReadFault> {
        if path == STANDARD_INPUT {
            return read_all(alloc, &mut self.system.reader());
        }
        match fs::open(self.system, path) {
            Ok(mut file) => read_all(alloc, &mut file),
            Err(error) => Err(read_fault(&error)),
        }
    }

    fn open(&mut self, path: &str) -> Result<HostLines<R>, ReadFault> {
        if path == STANDARD_INPUT {
            let input = buffered(self.system.alloc(), self.system.reader())?;
            return Ok(HostLines::Input(input));
        }
        match fs::open(self.system, path) {
            Ok(file) => Ok(HostLines::File(buffered(self.system.alloc(), file)?)),
            Err(error) => Err(read_fault(&error)),
        }
    }
}

/// The lines of a file of the system, or of standard input.
#[derive(Drop)]
pub enum HostLines<R: fs::Files + Input> {
    /// The lines of a file.
    File(BufReader<R::File>),
    /// The lines of standard input. Without a buffer of its own, a pipe would be read one byte at a time.
    Input(BufReader<R::Reader>),
}

impl<R: fs::Files + Input> Lines for HostLines<R> {
    ghost left = { λ _. None };

    fn take<A: Allocator>(&mut self, text: &mut Vec<u8, A>) -> Result<(), ReadFault> {
        match self {
            HostLines::File(file) => take_line(file, text),
            HostLines::Input(input) => take_line(input, text),
        }
    }
}

/// Appends the next line of a reader.
fn take_line<R: BufRead, A: Allocator>(
    reader: &mut R,
    text: &mut Vec<u8, A>,
) -> Result<(), ReadFault>
    ensures { OnOk result (TakesLine None None text.old.items text.new.items) }
{
    match reader.read_until(b'\n', text) {
        Ok(_) => Ok(()),
        Err(error) => Err(read_fault(&error)),
    }
}

/// A reader with a buffer in front, which one read fills with the bytes that have come, up to a block. `Memory`: memory
/// for the buffer ran out.
fn buffered<R: Read + Drop>(alloc: Global, reader: R) -> Result<BufReader<R>, ReadFault> {
    match BufReader::new(alloc, reader) {
        Ok(reader) => Ok(reader),
        Err(_) => Err(ReadFault::Memory),
    }
}

/// All remaining bytes of a reader.
///
/// `Memory`: memory ran out. `CannotRead`: any other error of the reader.
pub fn read_all<A: Allocator, R: Read>(alloc: A, reader: &mut R) -> Result<Vec<u8, A>, ReadFault>
    ensures all { IfOk result (λ v. IfSome (R.remaining reader.old) (λ bytes. v.items ≡ bytes)) }
    ensures end { OnOk result (IsAtEnd (R.remaining reader.new)) }
{
    let mut bytes = Vec::new(alloc);
    match reader.read_to_end(&mut bytes) {
        Ok(_) => Ok(bytes),
        Err(error) => Err(read_fault(&error)),
    }
}

/// The fault of reading a file that comes from this error: `Memory` if memory ran out, otherwise `CannotRead`.
fn read_fault(error: &io::Error) -> ReadFault
    ensures { result ≡ read_fault_of (error_kind error.now) }
{
    match error.kind() {
        io::ErrorKind::OutOfMemory => ReadFault::Memory,
        _ => ReadFault::CannotRead,
    }
}
