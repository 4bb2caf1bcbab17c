//! Resolution: what the expressions and variables of a message come to, and the errors on the way.
//!
//! A [`Scope`] is the message's declarations with the arguments of a request. A declaration is
//! resolved where it is used first; one that isn't used gives no error. Source: Unicode TS 35, Part
//! 9, "Expression and Markup Resolution".
#![tactic(auto)]

mod call;
mod expression;
mod markup;
mod option;
mod scope;
mod settings;
mod sources;
mod values;
mod variable;

pub use markup::MarkupValue;
pub use scope::Scope;
pub use sources::identifier_text;
