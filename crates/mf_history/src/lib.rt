//! Whether a log, and what its callers sent and got, make one legal history.
#![tactic(auto)]

mod answer;
mod asking;
mod counting;
mod forgone;
mod front;
mod judging;
mod numbers;
mod place;
mod publication;
mod reading;
mod sentence;
mod served;
mod transcript;
mod verdict;
mod walking;

pub use judging::legal;
pub use transcript::{Exchange, Exchanges, Transcript, Transcripts};
pub use verdict::Verdict;
