//! The stack that a command may need, before the heap takes the address space.

ghost use Rattle.std.specs.Prelude.{◌≡◌, IfErr};
ghost use Rattle.cli.specs.declared.faults.CommandFault.TheVariants.{Memory};

use cli::CommandFault;
use std::alloc::Global;
use std::rt::Env;

/// The bytes of a page of stack.
const PAGE: usize = 4_096;

/// As much stack as any command needs, in pages, beside the arguments and the environment, which the system keeps there.
const PAGES: u8 = 48;

/// Uses the stack that a command may need, so that the system provides it before the heap takes the address space.
///
/// `Memory`: the address space has no room for the stack. The heap reports that: it reserves as many bytes and returns
/// them first. If only the stack were used, a signal would end the process.
pub(crate) fn provide_stack<R: Env + AllocGlobal>(
    rt: &R,
) -> Result<(), CommandFault<'static, Global>>
    ensures fault { IfErr result (λ f. f ≡ Memory) }
{
    let byte = unknown_byte(rt);
    let room = vec![in rt.alloc(); byte; (PAGES as usize + 1) * PAGE]?;
    let first = room[byte as usize];
    drop(room);
    if use_pages(PAGES, first) == byte {
        Ok(())
    } else {
        Err(CommandFault::Memory)
    }
}

/// A number that the compiler doesn't know, and that takes no memory: the program's name if it has one byte, otherwise 0.
fn unknown_byte<R: Env>(rt: &R) -> u8 {
    let mut name = [0];
    match rt.arg(0, &mut name) {
        Ok(_) => name[0],
        Err(_) => 0,
    }
}

/// Uses this many pages of stack, and one more. The result is `byte`; it is read from the pages, since otherwise the
/// compiler leaves them out. Each page is in a frame of its own: one frame with all pages could become a part of the
/// caller's frame, and every call below it would need as much stack again.
fn use_pages(more: u8, byte: u8) -> u8 {
    let page = [byte; PAGE];
    if more == 0 {
        return page[byte as usize];
    }
    let read = use_pages(more - 1, byte);
    page[read as usize]
}
