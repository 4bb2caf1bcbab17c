//! What holds of every text.

ghost use Rattle.mf_plural.specs.Laws.{AreRulesComputed, IsGoodOrBad, IsNotBoth, IsNumberComputed, IsNumberedOnce, IsSpelledOnce};

/// Each text spells rules or has a first bad rule, and not both.
pub fn is_good_or_bad()
    ensures either { IsGoodOrBad }
    ensures not_both { IsNotBoth }
{}

/// Each text spells at most one list of rules.
pub fn is_spelled_once()
    ensures { IsSpelledOnce }
{}

/// The first bad rule of a text has one number.
pub fn is_numbered_once()
    ensures { IsNumberedOnce }
{}

/// The function `rules_of` of the definitions gives rules exactly where the text spells them, and a
/// number exactly where the first bad rule has it.
pub fn rules_are_computed()
    ensures rules { AreRulesComputed }
    ensures number { IsNumberComputed }
{}
