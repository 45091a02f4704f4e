// Calls of functions: arguments while a call is parsed.
ghost use Rattle.std.specs.Prelude.{◌≡◌};
ghost use Rattle.expr.specs.Syntax.{arguments_of, syntax_of, with_argument};

use crate::syntax::Boxed;
use std::alloc::Allocator;

/// The arguments of a call. No function takes more than three, so a longer list is only `More`.
#[derive(Drop)]
pub enum Arguments<'a, A: Allocator> {
    Empty,
    One(Boxed<'a, A>),
    Two(Boxed<'a, A>, Boxed<'a, A>),
    Three(Boxed<'a, A>, Boxed<'a, A>, Boxed<'a, A>),
    More,
}

impl<'a, A: Allocator> Arguments<'a, A> {
    /// The arguments with one more at the end.
    pub fn with(self, next: Boxed<'a, A>) -> Arguments<'a, A>
        ensures { arguments_of result ≡ with_argument (arguments_of self.entry) (syntax_of next.entry.value) }
    {
        match self {
            Arguments::Empty => Arguments::One(next),
            Arguments::One(first) => Arguments::Two(first, next),
            Arguments::Two(first, second) => Arguments::Three(first, second, next),
            Arguments::Three(_, _, _) => Arguments::More,
            Arguments::More => Arguments::More,
        }
    }
}
