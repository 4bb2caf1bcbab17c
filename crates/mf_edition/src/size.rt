//! The bytes that the publication of a handler counts for.
ghost use Rattle.std.specs.Prelude.{◌≡◌, ◌+◌};
ghost use Rattle.mf_tree.specs.Faults.{identifier_text};
ghost use Rattle.mf_edition.specs.Sizes as sizes;
ghost use Rattle.mf_edition.specs.Sizes.{byte_count, pairs_size, shown};

use crate::Handler;
use crate::change::OVERHEAD;
use mf_text::{Pair, Text};
use mf_tree::Identifier;
use mf_value::HandlerDef;

/// The size of a handler.
pub fn handler_size(handler: &Handler) -> u64
    ensures { result ≡ sizes.handler_size handler.now }
{
    let size = with_name(OVERHEAD, &handler.name);
    match &handler.def {
        HandlerDef::Alias { base, presets } => with_pairs(
            with_text(size, base),
            presets.as_slice(),
        ),
        HandlerDef::Affix {
            base,
            presets,
            prefix,
            suffix,
        } => {
            let size = with_pairs(with_text(size, base), presets.as_slice());
            with_text(with_text(size, prefix), suffix)
        }
        HandlerDef::Table { entries, default } => {
            let size = with_pairs(size, entries.as_slice());
            match default {
                Some(default) => with_text(size, default),
                None => size,
            }
        }
    }
}

/// A size and the bytes of a name as it is shown.
fn with_name(size: u64, name: &Identifier) -> u64
    ensures { result ≡ shown (size + byte_count (identifier_text name.now)) }
{
    match &name.namespace {
        Some(namespace) => {
            let size = with_text(size, &namespace.value).saturating_add(1);
            with_text(size, &name.name.value)
        }
        None => with_text(size, &name.name.value),
    }
}

/// A size and the bytes of a text.
fn with_text(size: u64, text: &Text) -> u64
    ensures { result ≡ shown (size + byte_count text.now) }
{
    size.saturating_add(text.as_str().len() as u64)
}

/// A size and the bytes of names with their values.
fn with_pairs(size: u64, pairs: &[Pair]) -> u64
    ensures { result ≡ shown (size + pairs_size pairs.now) }
{
    let mut total = size;
    for pair in pairs {
        total = with_text(with_text(total, &pair.name), &pair.value);
    }
    total
}
