//! What holds of every reply: the clause is a theorem over the definitions alone.
ghost use Rattle.mf_rehearse.specs.Laws.{CallersMakeOneHistory, RepliesAreLines};

/// The line of a reply is one line.
pub fn replies_are_lines()
    ensures { RepliesAreLines }
{}

/// Callers that sent their requests and left make one legal history with the log at the end.
pub fn callers_make_one_history()
    ensures { CallersMakeOneHistory }
{}
