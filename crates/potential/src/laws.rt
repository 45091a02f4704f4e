//! Law of the inputs of an energy: values are in the order of the names.

ghost use Rattle.potential.specs.InputNames.{InputsHaveNames};

/// The inputs for a pair of types are in the order of the names of an energy's variables. The input with the number of
/// `p1` is the first type's value of the parameter `p`, the input with the number of `p2` is the second type's, and the
/// input with a global's number is the global's value.
pub fn inputs_have_names()
    ensures { InputsHaveNames }
{}
