//! Errors of jobs.

/// The codes, each with its text.
pub const JOBS: [(&str, &str); 6] = [
    (
        "J1",
        "\
J1 BadLine N
Status 1.

Line N of the job is malformed. Lines count from 1, blank lines and comments
included. Line 1 must be exactly `pairmd job 1`. Every other line needs a known
key and that key's values (docs/FORMATS.md, section Job).
Frequent causes:
- a decimal comma, a unit, `=`, a comment after a value, a key in capitals
- a sign or a point in `dt`
- a mass with an exponent, or with more than 5 digits after its point: 39.948000
- a number with more than 18 digits, or a type's name with more than 5 bytes
- a byte order mark before line 1
If all lines are well formed, N is the first `type` line whose number of values
isn't the number of `parameter` lines.

Example: line 3 of a job has a comma in place of the point
    core 0,2
    pairmd: J1 BadLine 3

What to do: compare the line with the table in docs/FORMATS.md, section Job. If
N is 1, check that job and state aren't exchanged. `dt` is an integer number of
fs. A mass in u has at most five decimals: 39.948.
",
    ),
    (
        "J2",
        "\
J2 Missing KEY
Status 1.

The job has no line with this key. `energy`, `core`, `cutoff` and `dt` must each
occur once. They are looked for in this order, after all lines are read.

Example: a job with no line that begins with `dt`
    pairmd: J2 Missing dt

What to do: add the line.
",
    ),
    (
        "J3",
        "\
J3 Repeated KEY
J3 Repeated NAME
Status 1.

With a KEY: the job has a second line `energy`, `core`, `cutoff`, `dt`, `bits`
or `slices`. Each of these keys may occur only once.
With a NAME: a second `parameter` line, or a second `global` line, has this
name.

Example: the lines of a job
    parameter q
    parameter q
    pairmd: J3 Repeated q

What to do: delete one of the two lines, or rename the parameter or the global.
",
    ),
    (
        "J4",
        "\
J4 Range KEY
J4 Range cutoff
Status 1.

A number on a line with this key is out of range, or the job has one such line
too many. KEY is the line's key also for the value of a global or of a type.
`Range cutoff` also means that the cutoff, once rounded, isn't greater than the
core. This is checked after J2.

Example: a line of a job
    dt 1001
    pairmd: J4 Range dt

What to do: change the number, or delete the line. The ranges are in
docs/FORMATS.md, section Job: `dt` is from 1 to 1000, a cutoff at most 80 nm, a
mass from 0.00001 to 1000 u. A core must be below the cutoff.
",
    ),
    (
        "J5",
        "\
J5 RepeatedType NAME
Status 1.

Two `type` lines of the job have the same name.

Example: the lines of a job
    type AR 1
    type AR 1
    pairmd: J5 RepeatedType AR

What to do: delete one of the lines, or rename one type and its atoms.
",
    ),
    (
        "J6",
        "\
J6 NoSuchType NAME
Status 1.

No type of the job has this name, which `curve --types` gives. NAME is the first
of the two names that is missing, printed up to its first line feed.
The job is checked first (J1 to J5), its energy and code afterwards.

Example: the job has only the type AR
    pairmd curve job --types AR KR
    pairmd: J6 NoSuchType KR

What to do: take names from the `type` lines of the job. Capitals count. A name
that begins with `-`, except `-` itself, can't be given: rename the type.
",
    ),
];
