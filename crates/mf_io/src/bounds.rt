//! How much a session reads.

/// The caps of a session, in bytes: of one line without its newline, from 1 to 1,048,576, and of
/// the whole input, at least 1.
#[derive(Clone, Copy, Debug, PartialEq, Eq)]
pub struct Caps {
    pub line: u64,
    pub input: u64,
}
