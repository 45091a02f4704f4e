//! Errors of code: of a listing, or compiled from an energy.

/// The codes, each with its text.
pub const CODES: [(&str, &str); 10] = [
    (
        "C1",
        "\
C1 BadLine N
Status 1.

Line N of the listing, counted from 1, isn't an instruction, has an operand out
of range, or lacks its line feed. Line 1 must be exactly `pairmd code 1`. Jump
targets of 2^32 or more give C1, smaller ones past the end give C2.

Example: line 2 of a listing
    push 1.5
    pairmd: C1 BadLine 2

What to do: compare the line with the table in docs/FORMATS.md, section Listing.
Operands are integers: `push` takes a raw value, which is 2^32 for 1 at 32 bits.
",
    ),
    (
        "C2",
        "\
C2 BadTarget N
Status 1.

The jump on line N of the listing leads to itself, backwards, or past the end.
Targets are instruction indices, from 0: the instruction on line 2 has index 0.

Example: lines 2 and 3 of a listing
    push 0
    jump 0
    pairmd: C2 BadTarget 3

What to do: let the jump lead forwards, at most to the end.
",
    ),
    (
        "C3",
        "\
C3 TooLong
Status 1.

The listing has more than 16,384 instructions.

Example: a listing of 16,385 instructions
    pairmd: C3 TooLong

What to do: shorten the code.
",
    ),
    (
        "V1",
        "\
V1 Malformed PC
Status 3.

At instruction PC of the code, counted from 0, some path lacks an operand, a
local or an input, or two paths meet with stacks of different heights. If PC is
the number of instructions, some path ends with more or fewer than one value on
the stack. PC is the lowest index with a V1 or V4.

Example: line 2 of a listing
    add
    pairmd: V1 Malformed 0

What to do: correct the listing. Code compiled from an energy never gives V1.
",
    ),
    (
        "V2",
        "\
V2 Fault T U r R pc PC FAULT
Status 3.

For atoms of the types T and U at the distance R the code has no value: the
instruction PC, counted from 0, meets FAULT. FAULT is `F1 Overflow`,
`F2 ZeroDivisor` or `F3 NegativeRoot`; each has an explanation. R is a multiple
of 2^-bits nm: at 32 bits, divide R by 4294967296. T is the type of the atom
with the lower index. All pairs of types before T and U, in the job's order, are
accepted.
The code computes the slope, dU/dr, and `pairmd code JOB` prints it. `energy`,
`observe` and `curve` also verify the energy's own code: their line is about
that code if `pairmd check` accepts the job. `pairmd code JOB --energy` prints
it.
With `check --code`, instruction PC is on line PC + 2 of the listing.

Example: the core is 0.2 nm, and the energy has a pole there
    energy 1/(r-0.2)
    pairmd: V2 Fault AR AR r 858993459 pc 12 F2 ZeroDivisor

What to do: raise the core, but keep it below the shortest pair distance
(`nearest/nm` of `observe`), or rewrite the energy so that no step on the way
fails. A run needs code with a value at every distance from core to cutoff.
",
    ),
    (
        "V3",
        "\
V3 Undecided T U LO HI pc PC FAULT
Status 3.

For atoms of the types T and U, somewhere between the distances LO and HI, the
instruction PC may meet FAULT. At LO and at HI the code has a value; distances
in between weren't tried, since a slice is halved a limited number of times.
LO and HI are multiples of 2^-bits nm. All pairs of types before T and U, in the
job's order, are accepted.
The code computes the slope, dU/dr, and `pairmd code JOB` prints it. `energy`,
`observe` and `curve` also verify the energy's own code: their line is about
that code if `pairmd check` accepts the job. `pairmd code JOB --energy` prints
it.

Example: a narrow well, of a job with `slices 1`
    energy -0.001/(r^2-r+0.25001)
    pairmd: V3 Undecided AR AR 2137595856 2137596034 pc 26 F2 ZeroDivisor

What to do: take more `slices`. V3 can't occur if every slice has at most 2^24
distances: at 32 bits that is one slice for each 0.0039 nm. Or write each
variable as rarely as possible: `(r-0.5)^2` in place of `r^2-r+0.25`.
",
    ),
    (
        "V4",
        "\
V4 DepthOver64 PC
Status 3.

At instruction PC of the code, counted from 0, some path pushes a 65th value
onto the stack. PC is the lowest index with a V1 or V4.

Example: a listing of 65 lines `push 1`
    pairmd: V4 DepthOver64 64

What to do: correct the listing: keep values in locals. Code compiled from an
energy never gives V4.
",
    ),
    (
        "F1",
        "\
F1 Overflow
Status 3, in a line of V2 or V3.

A number on the way to the result doesn't fit 64 bits: at 32 bits its magnitude
is 2^31 or more, 2.1e9 kJ/mol or nm.

Example: the core is 0.2 nm
    energy (1/r)^14
    pairmd: V2 Fault AR AR r 858993459 pc 13 F1 Overflow

What to do: raise the core; take `bits 24`, which has room up to 5.5e11; or keep
intermediate values small: `(sigma/r)^12` in place of `sigma^12/r^12`.
",
    ),
    (
        "F2",
        "\
F2 ZeroDivisor
Status 3, in a line of V2 or V3.

A divisor on the way to the result is 0. The divisor can be a small number that
was rounded down: at 32 bits, any from 0 to below 2^-32 becomes 0.

Example: the core is 0.2 nm, and the energy has a pole there
    energy 1/(r-0.2)
    pairmd: V2 Fault AR AR r 858993459 pc 12 F2 ZeroDivisor

What to do: raise the core above the pole, or add a term that keeps the divisor
away from 0. To avoid an unwanted quotient, put it into a branch of `select`,
and not into a definition.
",
    ),
    (
        "F3",
        "\
F3 NegativeRoot
Status 3, in a line of V2 or V3.

The argument of a square root is below 0.

Example: the core is 0.2 nm
    energy sqrt(r-1)
    pairmd: V2 Fault AR AR r 858993459 pc 7 F3 NegativeRoot

What to do: choose with `select`, and put the root into its branch, not into a
definition. `sqrt(max(r-1, 0))` also guards the root, but the slope of a root
divides by zero at 0.
",
    ),
];
