//! Laws of the definitions, each the contract of an empty function.

ghost use Rattle.mf_meaning.specs.Laws.{IsCutting, IsRounding, IsReading};

/// A number is cut to its whole part.
pub fn is_cutting()
    ensures { IsCutting }
{}

/// A number is rounded to the digits that are asked for.
pub fn is_rounding()
    ensures { IsRounding }
{}

/// A text is read as the decimal that its number literal stands for.
pub fn is_reading()
    ensures { IsReading }
{}
