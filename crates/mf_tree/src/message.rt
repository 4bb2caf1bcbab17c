use crate::expression::Expression;
use crate::name::{Name, Names};
use crate::pattern::Pattern;
use mf_text::{List, Text};

/// A message: its declarations in order, and what is formatted.
#[derive(Debug, Drop)]
pub struct Message {
    pub declarations: Declarations,
    pub body: Body,
}

/// What a message is formatted to.
#[derive(Debug, Drop)]
pub enum Body {
    Pattern(Pattern),
    /// The pattern of the variant whose keys fit the selectors best.
    Match {
        selectors: Names,
        variants: Variants,
    },
}

/// A declaration, which binds a variable to an expression.
#[derive(Debug, Drop)]
pub enum Declaration {
    /// `.input`: the expression's operand is the variable of that name, and means the argument.
    Input { name: Name, expression: Expression },
    /// `.local`
    Local { name: Name, expression: Expression },
}

/// Declarations in the order of the source.
pub type Declarations = List<Declaration>;

/// A key of a variant.
#[derive(Debug, Drop)]
pub enum Key {
    Literal(Text),
    /// `*`, which fits every value.
    Star,
}

/// Keys, one for each selector.
pub type Keys = List<Key>;

/// A pattern with its keys.
#[derive(Debug, Drop)]
pub struct Variant {
    pub keys: Keys,
    pub pattern: Pattern,
}

/// Variants in the order of the source.
pub type Variants = List<Variant>;
