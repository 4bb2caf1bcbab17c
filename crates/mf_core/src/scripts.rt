//! What holds of every list of events with questions at them. None of these does anything when it
//! is called.
ghost use Rattle.mf_core.specs.Scripts.{IsLocal, ScriptsAreLegal, ScriptsAreTranscripts};

use mf_edition::editions_stay;

/// What questions are, and what they are answered at an edition of a log.
pub trait Meaning {
    ghost use Rattle.std.specs.Prelude.{ℕ, List};
    ghost use Rattle.mf_edition.specs.declared.change.Entry.{Entry};

    ghost question: { Type 0 };

    ghost said: { Type 0 };

    ghost answer: { List Entry → ℕ → question → said };
}

/// Whatever questions stand at the pins of whatever events, where what is answered at an edition
/// rests on the entries up to it alone: those of each caller, each answered at the number that its
/// pin was told, make with the caller's accepted publications its transcript over the log at the
/// end.
pub fn scripts_are_transcripts<M: Meaning>()
    ensures { IsLocal M.answer → ScriptsAreTranscripts M.answer }
{
    editions_stay();
}

/// The same of all callers at once: the questions, each answered at the number that its pin was
/// told, and the accepted publications make one legal history, whose log is the one at the end.
pub fn scripts_are_legal<M: Meaning>()
    ensures { IsLocal M.answer → ScriptsAreLegal M.answer }
{
    editions_stay();
}
