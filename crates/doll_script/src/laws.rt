//! What holds of the orders of lines: a law.

ghost use Rattle.doll_script.specs.Storable.{TargetsAreTexts};

/// The orders of lines that are texts have targets that are texts.
pub fn targets_are_texts()
    ensures { TargetsAreTexts }
{}
