//! Errors of files, of the output and of memory.

/// The codes, each with its text.
pub const FILES: [(&str, &str); 3] = [
    (
        "O1",
        "\
O1 CannotRead PATH
Status 5.

The file at PATH can't be read to its end: it doesn't exist, it is a directory,
or its permissions forbid reading. PATH is printed as it was given, so a path
with a line feed makes two lines.
A command reads its files before it checks any of them, except a stream: with
`--each` and in `replay` it reads states as it goes on. It reads JOB first, then
GRO, STATE or LISTING: `check --code L JOB` reads JOB before L.

Example:
    $ pairmd run job later --steps 1
    pairmd: O1 CannotRead later

What to do: check the path, which starts at the current directory, and the
permissions of the file.
",
    ),
    (
        "O2",
        "\
O2 CannotWrite
Status 5.

Standard output accepts no more bytes: for example, the disk is full, or the
program that reads a pipe has ended.
`trajectory`, `states` and `observe` have printed whole frames, states or rows
up to there, and maybe a part of the next one. The whole ones are correct and
can be used. Any other command may have printed the beginning of its result.

Example:
    $ pairmd run job state --steps 1 > /dev/full
    pairmd: O2 CannotWrite

What to do: free space on the disk, or keep the reader open, and run the command
again. Keep whole frames, states and rows; throw away any other partial output.
",
    ),
    (
        "Memory",
        "\
Memory
Memory after K steps
Status 4.

Memory ran out: an allocation failed.
`Memory`: before the first step, in `replay`, or in a command without steps.
`curve` may have printed whole tables; with `--each` and in `replay`, results
of some states or segments may be printed.
`Memory` can also replace another error whose line needs memory.
`Memory after K steps`: after K whole steps, K from 0. `run` and `back` print
nothing. `trajectory`, `states` and `observe` have printed whole frames, states
or rows up to there, maybe without the one after exactly K steps. What they
printed is correct and can be used.
No command changes a file.

Example: a trajectory of one step, while the system has no memory left
    pairmd: Memory after 0 steps

What to do: give the process more memory, or use `--workers 1`, which needs the
least memory.
",
    ),
];
