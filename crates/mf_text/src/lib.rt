//! Texts and lists: what every other crate of the server stands on.
//!
//! A [`Text`] is owned and seen as the list of its characters; a [`List`] is owned and seen as the
//! list of its members.
#![tactic(auto)]

mod arguments;
mod characters;
mod direction;
mod list;
mod normal_form;
mod ordered_pairs;
mod pair;
mod text;

pub use arguments::{Argued, Arguments};
pub use characters::{
    is_bidi, is_escapable, is_name_char, is_name_start, is_quoted, is_simple_start, is_text, is_ws,
};
pub use direction::Direction;
pub use list::List;
pub use normal_form::nfc;
pub use ordered_pairs::OrderedPairs;
pub use pair::Pair;
pub use text::Text;

/// A list of texts.
pub type Texts = List<Text>;

/// A list of names with their values, which may have a name more than once.
pub type Pairs = List<Pair>;
