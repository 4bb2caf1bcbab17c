//! Laws of the definitions, each the contract of an empty function.

ghost use Rattle.mf_decimal.specs.Laws.{RoundsToOne, HasOneDecimal, IsNotBoth, IsReadBack};

/// There is one shown number that a decimal is rounded to.
pub fn rounds_to_one()
    ensures { RoundsToOne }
{}

/// A text has one decimal at most.
pub fn has_one_decimal()
    ensures { HasOneDecimal }
{}

/// A text that has a decimal is not too wide.
pub fn is_not_both()
    ensures { IsNotBoth }
{}

/// The exact text of a decimal is read back as that decimal.
pub fn is_read_back()
    ensures { IsReadBack }
{}
