//! The theorem about the parser: parsing agrees with the grammar.

ghost use Rattle.expr.specs.Energy.{ReadsEnergyTexts};

/// A text is parsed to a tree if and only if the grammar gives it that tree with at most 64 parentheses and minus signs
/// open around any token. So the grammar is unambiguous.
pub fn reads_energy_texts()
    ensures { ReadsEnergyTexts }
{}
