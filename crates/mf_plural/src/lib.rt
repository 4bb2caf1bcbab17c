//! Plural rules: read from their texts, and the category that a shown number has by them.
//!
//! The rules and the operands are those of
//! [Unicode TS 35, Part
//! 3](https://www.unicode.org/reports/tr35/tr35-numbers.html#Language_Plural_Rules), "Plural rules
//! syntax" and "Operands".
#![tactic(auto)]

mod choice;
mod cut;
mod error;
mod grammar;
mod laws;
mod lexeme;
mod operands;
mod reading;
mod rule;
mod token;
mod value;
mod word;

pub use choice::category;
pub use error::RuleError;
pub use laws::{is_good_or_bad, is_numbered_once, is_spelled_once, rules_are_computed};
pub use reading::read_rules;
pub use rule::{AndPart, Category, Condition, Item, Items, Operand, Relation, Rule, Rules};
