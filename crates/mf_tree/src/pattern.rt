use crate::expression::{Attributes, Expression, OptionNodes};
use crate::name::Identifier;
use mf_text::{List, Text};

/// Which of the three forms markup has.
#[derive(Clone, Copy, Debug, PartialEq, Eq)]
pub enum Form {
    /// `{#name}`
    Start,
    /// `{#name /}`
    Standalone,
    /// `{/name}`
    End,
}

/// Markup, which is formatted to nothing.
#[derive(Debug, Drop)]
pub struct Markup {
    pub form: Form,
    pub name: Identifier,
    pub options: OptionNodes,
    pub attributes: Attributes,
}

/// A piece of a pattern.
#[derive(Debug, Drop)]
pub enum Piece {
    /// Characters with escapes replaced. It isn't empty, and no two texts stand side by side.
    Text(Text),
    Expression(Expression),
    Markup(Markup),
}

/// The pieces of a pattern in order.
pub type Pattern = List<Piece>;
