//! Laws of selection, each the contract of an empty function.

ghost use Rattle.mf_select.specs.Laws.{OneIsChosen, RanksTellKeys, ValidCanChoose};

/// A variant can be chosen in a message that the checks find nothing wrong with.
pub fn valid_messages_can_be_chosen_from()
    ensures { ValidCanChoose }
{}

/// Two keys that match a value equally well are equal, by the ranks of a locale: those of the
/// built-in functions and of handlers.
pub fn ranks_tell_keys_apart()
    ensures { RanksTellKeys }
{}

/// One variant at most is the chosen one.
pub fn one_variant_is_chosen()
    ensures { OneIsChosen }
{}
