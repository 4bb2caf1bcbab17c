/// Whether a log and transcripts make one legal history.
#[derive(Clone, Copy, Debug, PartialEq, Eq)]
pub enum Verdict {
    Yes,
    /// The first caller, and its first line, that doesn't fit.
    No {
        caller: u64,
        /// The line's place in the caller's joined transcripts, from 1. An entry of the caller's
        /// that none of its lines claims is shown as the number of its lines plus one.
        place: u64,
    },
}
