//! What callers sent and got.
use mf_io::Bytes;
use mf_text::{List, Text};

/// A line and the reply to it, each without its line feed.
#[derive(Debug, Drop)]
pub struct Exchange {
    /// The bytes of the line.
    pub request: Bytes,
    /// The reply line.
    pub reply: Text,
}

/// The lines of a transcript with their replies, in order.
pub type Exchanges = List<Exchange>;

/// What a caller sent and got, or a piece of it.
#[derive(Debug, Drop)]
pub struct Transcript {
    /// The number of the caller.
    pub caller: u64,
    pub lines: Exchanges,
}

/// Transcripts. Those of one caller are joined in their order.
pub type Transcripts = List<Transcript>;
