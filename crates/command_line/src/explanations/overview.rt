//! The overview of all errors: a line for each code.

/// A line for each code, in the order of the tables: the code, padded to eight columns, and a short meaning. Lines have
/// at most 80 columns. `tools/explanations.py` compares the codes with the tables, and copies the lines into pages.
pub const OVERVIEW: &str = "\
pairmd explain CODE prints the meaning of an error, an example and what to do.

O1      a file can't be read
O2      standard output can't be written
Memory  memory ran out
J1      a line of the job is malformed
J2      the job lacks a line that it needs
J3      a key, parameter or global of the job occurs twice
J4      a number of the job is out of range, or a line too many
J5      two types of the job have the same name
J6      the job has no type of this name
S1      a line of the state is malformed or out of range
S2      the state is cut off
S3      the state has text after its last atom
G1      the GRO file is cut off
G2      the second line of a GRO frame isn't a number of atoms
G3      a line of the GRO file isn't an atom line
G4      positions in the GRO file don't have three decimals
G5      the box of a GRO frame is malformed
G6      the box of a GRO frame isn't rectangular
G7      a GRO frame has more than 65,536 atoms
G8      the GRO file has no frame of this number
B1      the GRO frame has no box: all sides are 0
B2      a side of the box is out of range
E01     the energy has an unknown character
E02     a number in the energy is malformed
E03     the energy has a syntax error
E04     the energy uses an unknown name
E05     a function has the wrong number of arguments
E06     an exponent isn't an integer of magnitude 1 to 32
E07     a number in the energy is too large
E08     two definitions of the energy have the same name
E09     a name is reserved or already used
E10     the energy, its slope or its code is too large
E11     the energy uses an unsupported function, such as exp
C1      a line of the listing is malformed
C2      a jump of the listing leads backwards or past the end
C3      the listing has more than 16,384 instructions
V1      the listing misuses its stack, locals or inputs
V2      the code has no value for two types at a distance
V3      the verifier could not decide a range of distances
V4      the listing puts more than 64 values on its stack
F1      in V2 or V3: a number doesn't fit 64 bits
F2      in V2 or V3: a divisor is 0
F3      in V2 or V3: the argument of a square root is below 0
A1      an atom of the state has no type in the job
A2      a side of the box is shorter than two cutoffs
A3      the force on an atom might not fit 64 bits
A4      the step counter would leave 64 bits
A6      the job and the state have different fraction bits
A7      a stream of states isn't of one run
";
