//! What holds of every input: the clause is a theorem over the definitions alone.
ghost use Rattle.mf_lines.specs.Laws.{CutsAreUnique};

/// An input is cut in one way into whole lines and what follows them.
pub fn cuts_are_unique()
    ensures { CutsAreUnique }
{}
