//! The tokens of a rule.

ghost use Rattle.std.specs.Prelude.{◌≡◌};
ghost use Rattle.mf_plural.specs.Computed.{token_of};
ghost use Rattle.mf_plural.specs.Grammar as grammar;

use crate::rule::{Category, Operand};
use crate::word::{category_word, mark, operand_letter, value};
use mf_text::List;

/// A token of a rule.
#[derive(Clone, Copy, Debug, PartialEq, Eq)]
pub enum Token {
    Keyword(Category),
    Operand(Operand),
    And,
    Or,
    Value(u64),
    Colon,
    Percent,
    Equals,
    Differs,
    Comma,
    Dots,
}

/// The tokens of a rule in order.
pub type Tokens = List<Token>;

/// What stands between items, relations and parts.
#[derive(Clone, Copy, Debug, PartialEq, Eq)]
pub enum Separator {
    BetweenItems,
    BetweenRelations,
    BetweenParts,
}

impl Token {
    /// The token that a piece of a rule is, if it is one.
    pub fn of(text: &[u8]) -> Option<Token>
        ensures { result ≡ token_of text.now }
    {
        if let Some(number) = value(text) {
            Some(Token::Value(number))
        } else if let Some(category) = category_word(text) {
            Some(Token::Keyword(category))
        } else if let Some(operand) = operand_letter(text) {
            Some(Token::Operand(operand))
        } else {
            mark(text)
        }
    }

    /// Whether the token stands between such things.
    pub fn separates(&self, separator: Separator) -> bool
        ensures { result ≡ grammar.separates separator self.now }
    {
        match (separator, self) {
            (Separator::BetweenItems, Token::Comma) => true,
            (Separator::BetweenRelations, Token::And) => true,
            (Separator::BetweenParts, Token::Or) => true,
            _ => false,
        }
    }
}
