//! Progress lines on standard error: of the steps of runs, and of the parts of other work.

ghost use Rattle.std.specs.Prelude.{◌≡◌, ◌≤◌, ◌+◌, ◌∷◌, [], refl, length};
ghost use Rattle.std.proofs.Common.{◌∙◌};
ghost use Rattle.cli.specs.Command.{PrintsProgress};
ghost use Rattle.cli.specs.Progress.{Passes, ReportsSteps, no_steps, passes_more, passes_none, reports_more, word_for};
ghost use Rattle.cli.specs.declared.progress.Counted.TheVariants as counted;
ghost use Rattle.runs.specs.Watching.{hundredths_behind};

use fallible::{Out, write_all};
use line_text::{Line, put, put_integer};
use runs::{Watch, until_hundredth};
use verifier::Progress;

/// The parts of a work that progress lines count.
#[derive(Clone, Copy)]
pub(crate) enum Counted {
    /// The steps of a run.
    Steps,
    /// The slices of a verification.
    Slices,
    /// The slices and rows of the table of a potential.
    Parts,
}

/// The word for these parts in a progress line.
fn word(counted: Counted) -> &'static [u8]
    ensures word { result.now ≡ word_for counted }
    ensures short { length result.now ≤ 8 }
{
    match counted {
        Counted::Steps => b"steps",
        Counted::Slices => b"slices",
        Counted::Parts => b"parts",
    }
}

/// A watcher that prints a progress line to an output at each call: `pairmd: 1200 of 10000 steps`. Without the option
/// `--progress` it prints nothing.
///
/// It allocates no memory, and ignores failed writes.
#[derive(Drop)]
pub(crate) struct ProgressLines<'a, E: Out> {
    pub(crate) err: &'a mut E,
    pub(crate) progress: bool,
}

/// A later value of a watcher has the output and the option of the earlier value.
impl<'a, E: Out> Watch for ProgressLines<'a, E> {
    ghost told = { λ before after reports. (after.err.ghost_name ≡ before.err.ghost_name)
        × (after.progress ≡ before.progress)
        × ReportsSteps before.progress (E.output before.err.now) (E.output after.err.now) reports };

    ghost told_nothing = { λ w. (refl, refl, no_steps w.progress _) };

    ghost told_more = { λ u v w first more begun ended. (
      ended.0 ∙ begun.0,
      ended.1 ∙ begun.1,
      reports_more u.progress v.progress first more _ _ _ begun.1 begun.2 ended.2,
    ) };

    fn watches(&self) -> bool {
        self.progress
    }

    fn tell<O: Out>(&mut self, done: u64, all: u64, _out: &O) {
        if self.progress {
            write_progress(self.err, Counted::Steps, done, all);
        }
    }
}

/// A watcher that prints a progress line to an output for each hundredth of a work: `pairmd: 656 of 65536 slices`.
/// Without the option `--progress` it prints nothing.
///
/// It allocates no memory, and ignores failed writes. It ignores parts beyond the number of all parts.
#[derive(Drop)]
pub(crate) struct PartLines<'a, E: Out> {
    err: &'a mut E,
    counted: Counted,
    /// The number of all parts.
    all: u64,
    /// The number of parts that are complete.
    done: u64,
    progress: bool,
}

impl<'a, E: Out> PartLines<'a, E> {
    /// A watcher of a work of this many parts, none of which is complete.
    pub(crate) fn new(err: &'a mut E, counted: Counted, all: u64, progress: bool) -> Self
        ensures err { result.err.ghost_name ≡ err.entry.ghost_name }
        ensures output { E.output result.err.now ≡ E.output err.old }
        ensures counted { result.counted ≡ counted }
        ensures all { result.all ≡ all }
        ensures done { result.done ≡ 0 }
        ensures progress { result.progress ≡ progress }
    {
        PartLines {
            err,
            counted,
            all,
            done: 0,
            progress,
        }
    }
}

/// A later value of a watcher has the output, the kind and number of parts and the option of the earlier value.
impl<'a, E: Out> Progress for PartLines<'a, E> {
    ghost passed = { λ before after parts. (after.err.ghost_name ≡ before.err.ghost_name)
        × (after.counted ≡ before.counted) × (after.all ≡ before.all) × (after.progress ≡ before.progress)
        × Passes before.progress (word_for before.counted) before.all before.done after.done
        (E.output before.err.now) (E.output after.err.now) parts };

    ghost passed_none = { λ w. (refl, refl, refl, refl, passes_none w.progress (word_for w.counted) w.all w.done _) };

    ghost passed_more = { λ u v w first more begun ended. (
      ended.0 ∙ begun.0,
      ended.1 ∙ begun.1,
      ended.2 ∙ begun.2,
      ended.3 ∙ begun.3,
      passes_more u.progress v.progress u.counted v.counted u.all v.all u.done v.done w.done first more _ _ _
          begun.3 begun.1 begun.2 begun.4 ended.4,
    ) };

    fn pass(&mut self, parts: u32) {
        let parts = u64::from(parts);
        if self.done <= self.all && parts <= self.all - self.done {
            if self.progress {
                write_hundredths(self.err, self.counted, self.all, self.done, parts);
            }
            self.done += parts;
        }
    }
}

/// Writes a progress line for each of these further parts that completes a hundredth; `done` parts are complete.
fn write_hundredths<E: Out>(err: &mut E, counted: Counted, all: u64, done: u64, parts: u64)
    requires { done + parts ≤ all }
    ensures { PrintsProgress (word_for counted) all (E.output err.old) (E.output err.new) (hundredths_behind all done parts) }
{
    let mut made = 0;
    while made < parts {
        let next = until_hundredth(done + made, all);
        let more = next.min(parts - made);
        made += more;
        if more == next {
            write_progress(err, counted, done + made, all);
        }
    }
}

/// Writes a progress line to an output. At `u64::MAX` the output can't count another failed write, and nothing is
/// written.
fn write_progress<E: Out>(err: &mut E, counted: Counted, done: u64, all: u64)
    ensures { PrintsProgress (word_for counted) all (E.output err.old) (E.output err.new) (done ∷ []) }
{
    let mut line = Line::new();
    put(&mut line, b"pairmd: ");
    put_integer(&mut line, done);
    put(&mut line, b" of ");
    put_integer(&mut line, all);
    put(&mut line, b" ");
    put(&mut line, word(counted));
    put(&mut line, b"\n");
    if err.failures() < u64::MAX {
        let _ = write_all(err, line.as_slice());
    }
}
