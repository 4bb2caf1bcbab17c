use crate::kept::Kept;
use mf_decimal::Decimal;
use mf_text::Text;

/// What a value is.
#[derive(Clone, Debug, PartialEq, Eq, Drop)]
pub enum Content {
    Text(Text),
    Number {
        amount: Decimal,
        /// The options that a further function inherits.
        kept: Kept,
    },
    /// The value of an expression that has none, with the source that is shown for it.
    Fallback(Text),
}

/// How a value selects a variant (Unicode TS 35, Part 9, "Pattern Selection" and the option
/// `select`).
#[derive(Clone, Copy, Debug, PartialEq, Eq)]
pub enum Selects {
    /// It selects nothing.
    Nothing,
    /// As a text: the key with its normal form.
    Text,
    /// As a number: the key that is its exact text, else its category by the plural rules for
    /// cardinal numbers.
    Plural,
    /// The same by those for ordinal numbers.
    Ordinal,
    /// As a number: the key that is its exact text.
    Exact,
}
