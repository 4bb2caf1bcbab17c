//! What is so of every line. None of these does anything when it is called.
ghost use Rattle.mf_wire.specs.HandlerFields.{IdentifiersAreOfTheGrammar};

/// The name of a handler is read exactly where the rule `identifier` spells it.
pub fn identifiers_are_of_the_grammar()
    ensures { IdentifiersAreOfTheGrammar }
{}
