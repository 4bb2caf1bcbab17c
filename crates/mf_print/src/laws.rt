//! What holds of canonical sources: each clause is a theorem over the definitions alone.
ghost use Rattle.mf_print.specs.Laws.{CanonicalSpells};

/// The canonical source of a message spells that message.
pub fn canonical_sources_spell()
    ensures { CanonicalSpells }
{}
