//! Files, as commands read them.

ghost use Rattle.std.specs.Prelude.{◌≡◌, ◌∷◌, ℕ, List, [], Option, None, IfErr, IfOk};
ghost use Rattle.std.specs.Result.{MatchResult};
ghost use Rattle.cli.specs.Actions.{IsHeld, also_requested};
ghost use Rattle.cli.specs.Refusals.{IsUnread, IsUnreadOf, unread};
ghost use Rattle.state.specs.declared.sources.ReadFault.{ReadFault};

use crate::faults::CommandFault;
use state::{Lines, ReadFault};
use std::alloc::Allocator;

/// A store of files, by their paths.
pub trait Files {
    /// The paths of the files that were requested so far, in order, if known. For the system's own files they are
    /// unknown.
    ghost requested: { Self → Option (List (List ℕ)) };

    /// The bytes of the file at each path, if known. The bytes of the system's own files are unknown.
    ghost held: { Self → List ℕ → Option (List ℕ) };

    /// The lines of a file that is read as it comes.
    type Source: Lines + Drop;

    /// All bytes of the file at this path. Reading changes no file.
    ///
    /// `CannotRead`: the file can't be read to its end; this happens only if its bytes are unknown. `Memory`: memory
    /// ran out.
    fn read<A: Allocator + Copy>(&mut self, alloc: A, path: &str) -> Result<Vec<u8, A>, ReadFault>
        ensures requested { requested self.new ≡ also_requested (requested self.old) path.now }
        ensures gives { IfOk result (λ v. IsHeld (held self.old) path.now v.items) }
        ensures untold { IfErr result (λ fault. fault ≡ ReadFault.CannotRead → held self.old path.now ≡ None) }
        ensures still { held self.new ≡ held self.old };

    /// Opens the file at this path, to read it line by line.
    ///
    /// `CannotRead`: the file can't be read; this happens only if its bytes are unknown. `Memory`: memory ran out.
    fn open(&mut self, path: &str) -> Result<Self::Source, ReadFault>
        ensures requested { requested self.new ≡ also_requested (requested self.old) path.now }
        ensures gives { IfOk result (λ source. Self.Source.left source ≡ held self.old path.now) }
        ensures untold { IfErr result (λ fault. fault ≡ ReadFault.CannotRead → held self.old path.now ≡ None) }
        ensures still { held self.new ≡ held self.old };
}

/// The bytes of two files, read in this order.
pub(crate) fn read_two<'a, A: Allocator + Copy, F: Files>(
    alloc: A,
    first: &'a str,
    second: &'a str,
    files: &mut F,
) -> Result<(Vec<u8, A>, Vec<u8, A>), CommandFault<'a, A>>
    ensures { MatchResult result (λ both.
        (F.requested files.new ≡ also_requested (also_requested (F.requested files.old) first.entry.now) second.entry.now)
        × IsHeld (F.held files.old) first.entry.now both.0.items
        × IsHeld (F.held files.old) second.entry.now both.1.items)
        (IsUnreadOf (F.held files.old) (first.entry.now ∷ second.entry.now ∷ []) (F.requested files.old) (F.requested files.new)) }
{
    let first = read(alloc, first, files)?;
    let second = read(alloc, second, files)?;
    Ok((first, second))
}

/// The bytes of the file at this path.
pub(crate) fn read<'a, A: Allocator + Copy, F: Files>(
    alloc: A,
    path: &'a str,
    files: &mut F,
) -> Result<Vec<u8, A>, CommandFault<'a, A>>
    ensures reads { MatchResult result
        (λ v. (F.requested files.new ≡ also_requested (F.requested files.old) path.entry.now)
        × IsHeld (F.held files.old) path.entry.now v.items)
        (IsUnread (F.held files.old) path.entry.now (F.requested files.old) (F.requested files.new)) }
    ensures still { F.held files.new ≡ F.held files.old }
{
    match files.read(alloc, path) {
        Ok(bytes) => Ok(bytes),
        Err(fault) => Err(unread(fault, path)),
    }
}

/// The lines of the file at this path.
pub(crate) fn open<'a, A: Allocator, F: Files>(
    path: &'a str,
    files: &mut F,
) -> Result<F::Source, CommandFault<'a, A>>
    ensures opens { MatchResult result (λ source. (F.requested files.new ≡ also_requested (F.requested files.old) path.entry.now)
        × (F.Source.left source ≡ F.held files.old path.entry.now))
        (IsUnread (F.held files.old) path.entry.now (F.requested files.old) (F.requested files.new)) }
    ensures still { F.held files.new ≡ F.held files.old }
{
    match files.open(path) {
        Ok(source) => Ok(source),
        Err(fault) => Err(unread(fault, path)),
    }
}

/// The fault of a command whose file at this path wasn't read.
fn unread<'a, A: Allocator>(fault: ReadFault, path: &'a str) -> CommandFault<'a, A>
    ensures { result ≡ unread fault path.entry }
{
    match fault {
        ReadFault::CannotRead => CommandFault::CannotRead { path },
        ReadFault::Memory => CommandFault::Memory,
    }
}
