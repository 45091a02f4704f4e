//! Errors of GRO files and their boxes.

/// The codes, each with its text.
pub const GRO_FILES: [(&str, &str); 10] = [
    (
        "G1",
        "\
G1 Truncated
Status 1.

The GRO file ends too early. Either a line that a frame needs is missing, or the
file ends without a line feed, in an atom line of fewer than 44 bytes or a box
line of fewer than 3 values. Carriage returns at the end don't count.
An empty file gives G1, and so does a file of one empty line. After the last
frame only spaces and empty lines may follow: a tab begins another frame.
A box value that is cut within its digits can't be noticed.

Example: a GRO file without its last line, the box
    pairmd: G1 Truncated

What to do: copy the file again. If it is whole, delete any text after the last
frame.
",
    ),
    (
        "G2",
        "\
G2 BadCount N
Status 1.

Line N, the second line of a frame, isn't a number of atoms: digits, with spaces
around them or without. Lines count from 1 through the whole file. A file of two
or more empty lines and no text gives G2 at line 2.

Example: line 2 of a GRO file
    2 atoms
    pairmd: G2 BadCount 2

What to do: correct the number of atoms. If N isn't 2, the number of atoms of
the frame above may be wrong, or an empty line separates two frames.
",
    ),
    (
        "G3",
        "\
G3 BadColumns N
Status 1.

Line N, counted from 1 through the whole file, isn't an atom line. It has
- a byte outside 32 to 126 (a tab, a letter with an accent),
- fewer than two points after column 20,
- a field outside its columns, or
- text after the last field.
Often the number of atoms is wrong, and line N is the box.

Example: a GRO file of two atoms, whose second line has the number 3
    pairmd: G3 BadColumns 5

What to do: correct the number of atoms. If a position lacks the digit before
its point (`.500`), let GROMACS write the file again:
`gmx editconf -f FILE -o NEW.gro`. Otherwise correct the columns.
",
    ),
    (
        "G4",
        "\
G4 Precision N
Status 1.

The positions on line N don't have three decimals: the first two points after
column 20 aren't 8 columns apart. Lines count from 1 through the whole file.

Example: line 3 of a GRO file
    1AR      AR    1   0.5000   0.0000   0.0000
    pairmd: G4 Precision 3

What to do: write three decimals, as `gmx editconf` and `gmx trjconv -ndec 3`
do.
",
    ),
    (
        "G5",
        "\
G5 BadBox N
Status 1.

Line N, after the atoms, isn't a box: 3 to 9 values between spaces or tabs. Each
value is an optional minus sign, 1 to 12 digits, and maybe a point with 1 to 5
digits. Lines count from 1 through the whole file.
Often the number of atoms is wrong, and line N is an atom.

Example: a GRO file of two atoms, whose second line has the number 1
    pairmd: G5 BadBox 4

What to do: correct the number of atoms, or the box.
",
    ),
    (
        "G6",
        "\
G6 Triclinic N
Status 1.

The box on line N isn't rectangular: one of its values from the fourth on isn't
zero. Lines count from 1 through the whole file.

Example: line 5 of a GRO file
    2.00000 2.00000 2.00000 0.10000 0.00000 0.00000 0.00000 0.00000 0.00000
    pairmd: G6 Triclinic 5

What to do: use a rectangular box, and a system that was made for it
(`gmx editconf -bt triclinic -angles 90 90 90`).
",
    ),
    (
        "G7",
        "\
G7 TooManyAtoms N
Status 1.

Line N, counted from 1 through the whole file, states more than 65,536 atoms for
a frame.

Example: line 2 of a GRO file
    65537
    pairmd: G7 TooManyAtoms 2

What to do: use a part of the system: `gmx trjconv` or `gmx editconf` with an
index group.
",
    ),
    (
        "G8",
        "\
G8 NoSuchFrame
Status 1.

The GRO file has fewer frames than the number given with `--frame`.

Example: a GRO file with one frame
    $ pairmd start job gro --frame 2
    pairmd: G8 NoSuchFrame

What to do: give the number of an earlier frame. Frames count from 1.
",
    ),
    (
        "B1",
        "\
B1 NoBox
Status 1.

All three sides of the box are 0: the system has no box.

Example: the last line of a GRO file
    0.00000 0.00000 0.00000
    pairmd: B1 NoBox

What to do: give the system a box, for example with `gmx editconf -box x y z`.
",
    ),
    (
        "B2",
        "\
B2 SideRange
Status 1.

A side of the box is below 0.00001 nm or above 160 nm. Negative sides give B2
too.

Example: the last line of a GRO file
    2.00000 2.00000 200.00000
    pairmd: B2 SideRange

What to do: change the box. If its sides are in Angstrom, divide them by ten:
lengths in a GRO file are in nm.
",
    ),
];
