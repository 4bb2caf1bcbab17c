//! What holds of every log and all lines: each clause is a theorem over the definitions alone.
ghost use Rattle.mf_transcript.specs.Laws.{AnswersAreServed, CountsNumberEntries, EditionsNeverFall, LegalHistoriesHaveTranscripts, MovesFollow, OneCaseHolds, PublicationsRise, RepliesDiffer, RepliesFixTheirEditions, SolesAreTranscripts, SolesHaveOneOutcome, StepsFollow, StepsStay, TranscriptsAreLegal, TranscriptsAreOfCalls, TranscriptsStay};

/// No two cases hold of one line and its reply.
pub fn one_case_holds()
    ensures { OneCaseHolds }
{}

/// A line and its reply fix where they take a caller, over a log within its limits.
pub fn replies_fix_their_editions()
    ensures { RepliesFixTheirEditions }
{}

/// The edition that a caller has seen never falls.
pub fn editions_never_fall()
    ensures { EditionsNeverFall }
{}

/// A line makes no entry, or it makes one, whose edition is above the one seen before.
pub fn publications_rise()
    ensures { PublicationsRise }
{}

/// Steps behind steps are steps.
pub fn steps_follow()
    ensures { StepsFollow }
{}

/// Steps over a log are steps over each longer log.
pub fn steps_stay()
    ensures { StepsStay }
{}

/// Behind the edition that a transcript begins at, each entry of its caller has as its number how
/// many the caller has up to it.
pub fn counts_number_entries()
    ensures { CountsNumberEntries }
{}

/// The line of a reply isn't the memory line.
pub fn replies_differ()
    ensures { RepliesDiffer }
{}

/// A request for a sentence is served one message where its answer is formatted or too long, and
/// else none.
pub fn answers_are_served()
    ensures { AnswersAreServed }
{}

/// A transcript of lines and replies is one of calls, which lines and replies mean.
pub fn transcripts_are_of_calls()
    ensures { TranscriptsAreOfCalls }
{}

/// Transcripts of callers over one log make one legal history of lines.
pub fn transcripts_are_legal()
    ensures { TranscriptsAreLegal }
{}

/// In a legal history of lines what each caller sent and got is its transcript.
pub fn legal_histories_have_transcripts()
    ensures { LegalHistoriesHaveTranscripts }
{}

/// A transcript over a log is one over each longer log in which its caller made nothing more.
pub fn transcripts_stay()
    ensures { TranscriptsStay }
{}

/// Moves of a desk behind others are moves.
pub fn moves_follow()
    ensures { MovesFollow }
{}

/// What the one caller of a desk sends and gets is a transcript of caller 0 over the log of the
/// desk afterwards, where the opening log is caller 0's.
pub fn soles_are_transcripts()
    ensures { SolesAreTranscripts }
{}

/// Without memory lines, the replies to the one caller of a desk and the log afterwards are a
/// function of the desk and the lines.
pub fn soles_have_one_outcome()
    ensures { SolesHaveOneOutcome }
{}
