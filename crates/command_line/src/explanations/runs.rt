//! Errors of a run: a job and a state that do not fit, too many steps, or a stream that isn't of one run.

/// The codes, each with its text.
pub const RUNS: [(&str, &str); 6] = [
    (
        "A1",
        "\
A1 UnknownType N
Status 1.

The job has no `type` line with the name of atom N of the state. N is the lowest
such atom, counted from 1.

Example: a job with the one type `AR`, and a state whose second atom is an `X`
    pairmd: A1 UnknownType 2

What to do: add a `type` line for this name, or rename the atom or the type.
Upper and lower case differ.
",
    ),
    (
        "A2",
        "\
A2 CutoffTooLong
Status 1.

A side of the box is shorter than two cutoffs: 200000 cutoff > L 2^bits, with
the raw cutoff and the side L in 10^-5 nm. Since the cutoff is rounded, a box of
exactly two cutoffs can give A2.

Example: a line of a job, in a box of 2 nm
    cutoff 1.5
    pairmd: A2 CutoffTooLong

What to do: shorten the cutoff, or use a larger box.
",
    ),
    (
        "A3",
        "\
A3 ForceRange
Status 1.

The force on an atom might not fit 64 bits: the number of atoms less one, times
the bound that `pairmd check` prints, is 2^63 or more. The sum must fit wherever
the atoms move, so every other atom counts with the greatest force.

Example: a job that runs with five atoms, and a state of six
    energy 2e7/r
    pairmd: A3 ForceRange

What to do: raise the core, but keep it below the shortest pair distance
(`nearest/nm` of `observe`); weaken the energy, or use fewer atoms. If the bound
is far above the greatest slope, take more `slices`. `bits 24` leaves more room;
then change the state's bits too (A6).
",
    ),
    (
        "A4",
        "\
A4 StepRange
Status 1.

The step counter of the state would leave 64 bits within the requested steps.
The program makes no step.

Example: line 3 of a state, of which one step is requested
    step 9223372036854775807
    pairmd: A4 StepRange

What to do: request fewer steps, or edit the counter.
",
    ),
    (
        "A6",
        "\
A6 BitsDiffer
Status 1.

The job and the state have different numbers of fraction bits.

Example: a line of a job, which is used with a state of 32 bits
    bits 24
    pairmd: A6 BitsDiffer

What to do: give the state's `bits` in the job. A state of 24 or 40 bits has a
line `bits`, a state of 32 bits has none. Or change the state, whose coordinates
don't depend on the bits. For 24 or 40 bits its first line is `pairmd state 2`,
and the line `bits` comes after the line `step`. For 32 bits its first line is
`pairmd state 1`, and it has no line `bits`.
",
    ),
    (
        "A7",
        "\
A7 NotOneRun N
Status 1.

`replay` has replayed the stream to its end, and N of the replayed segments
differ: a run from the segment's first state doesn't end at the second. The line
of each such segment names the first difference.

Example: two states of a run of 1000 steps; the second was edited
    0 1000 differs: atom 2 x
    pairmd: A7 NotOneRun 1

What to do: replay with the job of the run. If only some segments differ, each
of them ends or begins at a state that was changed: `pairmd run` makes it again
from the state before it.
",
    ),
];
