//! Errors of energies.

/// The codes, each with its text.
pub const ENERGIES: [(&str, &str); 11] = [
    (
        "E01",
        "\
E01 BadCharacter AT
Status 3.

The byte at AT can't begin any number, name or sign of a formula. AT is a byte
offset in the formula, from 0.

Example: a line of a job
    energy 1/r & 2
    pairmd: E01 BadCharacter 4

What to do: remove the byte. A power is written with `^`, a choice with
`select`. A comment needs a line of its own.
",
    ),
    (
        "E02",
        "\
E02 BadNumber AT
Status 3.

The number at AT is malformed: it has no digit, more than 18 digits before its
exponent, an exponent past 99, a second point, or an `e` without digits. AT is a
byte offset in the formula, from 0.

Example: a line of a job
    energy 1.2.3*r
    pairmd: E02 BadNumber 0

What to do: rewrite the number.
",
    ),
    (
        "E03",
        "\
E03 UnexpectedToken AT
Status 3.

The grammar doesn't allow the token at AT, or the formula ends there too early.
AT is a byte offset in the formula, from 0. At the end of the formula AT is its
length, blanks at the end of the line included.

Example: a parenthesis that isn't closed
    energy 1/(r+1
    pairmd: E03 UnexpectedToken 6

What to do: correct the formula. Frequent causes: a decimal comma, `**` in place
of `^`, an `=` in front. Definitions follow semicolons: `energy a/r; a=2`. A
sign `+` can't come first, and a power of a power needs parentheses.
",
    ),
    (
        "E04",
        "\
E04 UnknownName NAME
Status 3.

NAME isn't known at this point. A name must be `r`, a global, a parameter
followed by 1 or 2, or a definition further right. Before a parenthesis it must
be a function, and a function's name needs its parenthesis.

Example: a formula of a job with no global `eps`
    energy eps/r
    pairmd: E04 UnknownName eps

What to do: define the name after a semicolon, or add a `global` line. A
parameter `q` is written `q1` for the first atom and `q2` for the second. A
definition may use only definitions to its right: move this one right. Names of
functions are in lower case, and a power is `x^9`: there is no `pow`.
",
    ),
    (
        "E05",
        "\
E05 WrongArgumentCount NAME
Status 3.

The function NAME has the wrong number of arguments. `min` and `max` take two,
`select` takes three, and all other functions take one.

Example: a line of a job
    energy min(r)
    pairmd: E05 WrongArgumentCount min

What to do: correct the number of arguments; a decimal comma separates two
arguments. docs/FORMATS.md, section Energy text, lists the functions.
",
    ),
    (
        "E06",
        "\
E06 BadExponent AT
Status 3.

The `^` at AT isn't followed by an exponent. An exponent is an integer from 1 to
32, in digits only, maybe with a minus sign, maybe in parentheses. (If only the
closing parenthesis is missing, the error is E03.) AT is a byte offset in the
formula, from 0.

Example: a line of a job
    energy r^0.5
    pairmd: E06 BadExponent 1

What to do: write a product, a quotient or a root: `sqrt(r)`. An exponent can't
be a name: write `(sigma/r)^14` with the number itself.
",
    ),
    (
        "E07",
        "\
E07 NumberRange AT
Status 3.

The number at AT is too large: once rounded, it is 2^31 or more at 32 bits, 2^39
at 24, 2^23 at 40. A minus sign in front doesn't help. AT is a byte offset in
the formula, from 0.

Example: a line of a job
    energy 3e9/r
    pairmd: E07 NumberRange 0

What to do: use a smaller number, or a line `bits 24`. Powers of a quotient stay
small when separate powers don't: `(sigma/r)^12` in place of `sigma^12/r^12`.
",
    ),
    (
        "E08",
        "\
E08 RepeatedDefinition NAME
Status 3.

Two definitions of the formula have the same name.

Example: a line of a job
    energy a/r; a=1; a=2
    pairmd: E08 RepeatedDefinition a

What to do: rename one of them.
",
    ),
    (
        "E09",
        "\
E09 ReservedName NAME
Status 3.

NAME already has a meaning. Reserved names are `r` and the names of functions,
including those that `pairmd explain E11` lists. The name clashes
- in the job: a global, or a parameter followed by 1 or 2, has a reserved name
  or the name of another of these (a parameter `atan` clashes with `atan2`), or
- in the formula: a definition has a reserved name, the name of a global, or the
  name of a parameter followed by 1 or 2.

Example: a line of a job
    energy sqrt/r; sqrt=1
    pairmd: E09 ReservedName sqrt

What to do: rename the parameter, the global or the definition.
",
    ),
    (
        "E10",
        "\
E10 TooLarge
Status 3.

The formula passes a limit:
- 4,096 tokens,
- 64 open parentheses and minus signs around one operand (an exponent's
  parentheses count, its minus sign doesn't), or
- 64 definitions.
Or the formula is valid, and compiling it passes a limit: 128 definitions for
its slope, or 16,384 instructions. `energy`, `observe` and `curve` also compile
the formula itself, and so does `pairmd code JOB --energy`, which then gives the
same error.

Example: a formula in 65 pairs of parentheses
    pairmd: E10 TooLarge

What to do: split or simplify the formula. Put a part that occurs more than once
into a definition, which is computed once.
",
    ),
    (
        "E11",
        "\
E11 LeftOutFunction NAME
Status 3.

The function NAME isn't supported. The unsupported functions are exp, log, sin,
cos, sec, csc, tan, cot, asin, acos, atan, atan2, sinh, cosh, tanh, erf and
erfc.

Example: a line of a job
    energy exp(-r)
    pairmd: E11 LeftOutFunction exp

What to do: approximate it with powers, roots and quotients. docs/ACCURACY.md,
section Exponentials, has formulas for exp, and examples/buckingham.job uses
one. examples/pieces.py turns a table of any potential into an energy.
",
    ),
];
