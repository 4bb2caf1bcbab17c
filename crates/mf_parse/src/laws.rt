//! What holds of every text: each clause is a theorem over the definitions alone.
ghost use Rattle.mf_parse.specs.Parsing.{IsComputed, IsSpelledByOne};

/// Each text spells at most one message.
pub fn each_text_spells_one_message()
    ensures { IsSpelledByOne }
{}

/// The function `message_of` of the definitions gives a message exactly where the text spells it.
pub fn messages_are_computed()
    ensures { IsComputed }
{}
