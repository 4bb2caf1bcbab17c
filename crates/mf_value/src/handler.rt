use crate::entries::Entries;
use mf_text::{Pairs, Text};
use thiserror::Error;

/// What a handler of an edition does.
#[derive(Debug, PartialEq, Eq, Drop)]
pub enum HandlerDef {
    /// A function under another name, with options that it is given beforehand.
    Alias {
        base: Text,
        presets: Pairs,
    },
    /// The same, whose value is shown between a prefix and a suffix.
    Affix {
        base: Text,
        presets: Pairs,
        prefix: Text,
        suffix: Text,
    },
    /// A text for each of some texts, and one for all others where there is a default.
    Table {
        entries: Entries,
        default: Option<Text>,
    },
}

/// Why a handler is refused.
#[derive(Clone, Copy, PartialEq, Eq, Debug, Error)]
pub enum DefError {
    /// The name has no namespace, or the namespace `u` or `own`.
    #[error("the name of a handler needs a namespace other than u and own")]
    ReservedName,
    /// The base isn't `string`, `number` or `integer`.
    #[error("the base of a handler is string, number or integer")]
    BadBase,
    /// The preset at this place, from 0, isn't an option of the base, or has a value that isn't
    /// allowed.
    #[error("preset {index} isn't an option of the base with a value that is allowed")]
    BadOption { index: u32 },
    /// The key at this place, from 0, has the normal form of an earlier one.
    #[error("key {index} of the table is there twice")]
    RepeatedKey { index: u32 },
}
