use mf_text::{List, Text};
use mf_tree::Identifier;

/// An option that a call is given.
#[derive(Debug, Drop)]
pub struct Given {
    pub name: Identifier,
    /// The option text of its value.
    pub value: Text,
    /// Whether the value is a literal, and no variable.
    pub literal: bool,
}

/// Options in the order of the source. Where an identifier is there more than once, the first that
/// is allowed counts.
pub type Options = List<Given>;
