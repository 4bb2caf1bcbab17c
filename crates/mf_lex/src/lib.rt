//! The readers of the lexical rules: each takes the longest text of its rule that begins at the
//! cursor.
//!
//! The rules are those of [Unicode
//! MessageFormat](https://www.unicode.org/reports/tr35/tr35-messageFormat.html#syntax):
//! `o`, `s`, `escaped-char`, `name`, `identifier` and `literal`.
#![tactic(auto)]

mod class;
mod cursor;
mod escape;
mod ident;
mod laws;
mod literal;
mod name;
mod readers;
mod run;
mod space;

pub use cursor::Cursor;
pub use ident::Ident;
pub use laws::{identifiers_are_spelled_once, literals_are_spelled_once, names_are_spelled_once};
