use mf_text::{Direction, List, Pairs, Text};
use mf_tree::Form;

/// A part of a formatted message.
#[derive(Debug, PartialEq, Eq, Drop)]
pub enum Part {
    /// A text of the pattern.
    Text(Text),
    /// A mark that begins or ends the isolation of a part: one of U+2066 to U+2069.
    Isolate(char),
    /// The value of an expression that is a string, with its prefix and suffix.
    String {
        value: Text,
        dir: Direction,
        /// The value is isolated whatever its direction.
        forced: bool,
        id: Option<Text>,
    },
    /// The value of an expression that is a number, with its prefix and suffix.
    Number {
        value: Text,
        dir: Direction,
        /// The value is isolated whatever its direction.
        forced: bool,
        id: Option<Text>,
    },
    /// Markup, which shows nothing. Its name and those of its options are identifiers in
    /// Normalization Form C.
    Markup {
        form: Form,
        name: Text,
        /// The options in the order of the source, with the texts of their values.
        options: Pairs,
        id: Option<Text>,
    },
    /// An expression that has no value, which shows this source in braces.
    Fallback {
        source: Text,
    },
}

/// A list of parts.
pub type Parts = List<Part>;
