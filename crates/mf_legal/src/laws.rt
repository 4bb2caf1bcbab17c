//! What holds of every log and of all its callers. None of these does anything when it is called.
ghost use Rattle.mf_legal.specs.Calls.{Service};
ghost use Rattle.mf_legal.specs.Laws.{LegalHistoriesHaveTranscripts, TranscriptsAreLegal, TranscriptsStay};

/// What lines and replies mean.
pub trait Meaning {
    ghost line: { Type 0 };

    ghost reply: { Type 0 };

    ghost service: { Service line reply };
}

/// Transcripts of callers over one log make one legal history.
pub fn transcripts_are_legal<M: Meaning>()
    ensures { TranscriptsAreLegal M.line M.reply M.service }
{}

/// In a legal history what each caller sent and got is its transcript.
pub fn legal_histories_have_transcripts<M: Meaning>()
    ensures { LegalHistoriesHaveTranscripts M.line M.reply M.service }
{}

/// A transcript over a log is one over each longer log in which its caller made nothing more.
pub fn transcripts_stay<M: Meaning>()
    ensures { TranscriptsStay M.line M.reply M.service }
{}
