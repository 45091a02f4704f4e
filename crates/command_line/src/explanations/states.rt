//! Errors of states.

/// The codes, each with its text.
pub const STATES: [(&str, &str); 3] = [
    (
        "S1",
        "\
S1 BadLine N
Status 1.

Line N of the state, counted from 1, doesn't have the form of a state, or a
number on it is out of range. Every state has exactly one text: numbers have no
leading zeros and no plus sign, one space separates words, columns have fixed
widths, and lines end with a line feed only, without a carriage return.

Example: line 3 of a state
    step 01
    pairmd: S1 BadLine 3

What to do: use a state as `start` or `run` printed it. If a script writes the
state, compare line N with docs/FORMATS.md, section State. If N is 1, check that
the file is a state and not a job or a GRO file.
",
    ),
    (
        "S2",
        "\
S2 Truncated
Status 1.

The state ends before the line feed of a line that it needs. Either the file was
cut off, or it has fewer atoms than its line `atoms` states.

Example: a state without its last line
    pairmd: S2 Truncated

What to do: use the whole file; its last line needs a line feed too. If a
command was redirected to its own STATE, the shell emptied the file first: write
to a new file, then rename that file.
",
    ),
    (
        "S3",
        "\
S3 Trailing
Status 1.

The state has text after the line of its last atom; an empty line counts. Or the
state has more atoms than its line `atoms` states.

Example: line 4 of a state of two atoms
    atoms 1
    pairmd: S3 Trailing

What to do: delete the text, or correct the number of atoms. If the file has
several states, as `states` prints them, add `--each`: `observe`, `frame`,
`energy`, `forces` and `velocities` read all states then. For other commands
split the file: docs/FORMATS.md, section Command line.
",
    ),
];
