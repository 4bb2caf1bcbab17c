//! What holds of every request: each clause is a theorem over the definitions alone.
ghost use Rattle.mf_answer.specs.Laws.{RequestsHaveOneAnswer};

/// A request for a sentence has one answer at an edition of a log.
pub fn requests_have_one_answer()
    ensures { RequestsHaveOneAnswer }
{}
