use mf_tree::{Faults, Message};

/// What a source compiles to.
#[derive(Debug, Drop)]
pub enum Plan {
    /// The errors that make it invalid, at least one.
    Invalid(Faults),
    /// The message that it spells, which has no such error and at most 256 declarations.
    Valid(Message),
}
