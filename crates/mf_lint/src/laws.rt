//! What holds of canonical sources: each clause is a theorem over the definitions alone.
ghost use Rattle.mf_lint.specs.Laws.{CanonicalIsSpelledBack, CanonicalIsStable, CanonicalTellsNodes, LintIsComputed, LintIsStable, LintsOne};

/// A message that is printed and read again is the same message.
pub fn what_is_printed_is_read_back()
    ensures { CanonicalIsSpelledBack }
{}

/// What is printed, read and printed again is the same text.
pub fn printing_is_stable()
    ensures { CanonicalIsStable }
{}

/// Two texts spell one message exactly where their canonical sources are equal.
pub fn canonical_sources_tell_messages()
    ensures { CanonicalTellsNodes }
{}

/// A canonical source that is linted is valid, and its own canonical source.
pub fn linting_is_stable()
    ensures { LintIsStable }
{}

/// One thing is said of a source that is linted.
pub fn each_source_is_linted_to_one()
    ensures { LintsOne }
{}

/// The function `lint_of` of the definitions gives what is said of each source, and that alone.
pub fn what_is_linted_is_computed()
    ensures { LintIsComputed }
{}
