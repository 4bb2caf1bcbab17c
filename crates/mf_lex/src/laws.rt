ghost use Rattle.mf_lex.specs.Laws.{NamesAreSpelledOnce, IdentifiersAreSpelledOnce, LiteralsAreSpelledOnce};

/// Each text spells at most one name.
pub fn names_are_spelled_once()
    ensures { NamesAreSpelledOnce }
{}

/// Each text spells at most one identifier.
pub fn identifiers_are_spelled_once()
    ensures { IdentifiersAreSpelledOnce }
{}

/// Each text spells at most one literal.
pub fn literals_are_spelled_once()
    ensures { LiteralsAreSpelledOnce }
{}
