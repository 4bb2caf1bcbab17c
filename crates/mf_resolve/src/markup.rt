//! What markup comes to.

ghost use Rattle.std.specs.Prelude.{◌≡◌, IfOk};
ghost use Rattle.mf_resolve.specs.Settings as settings;

use crate::sources::identifier_text;
use mf_text::{List, Pair, Pairs, Text};
use mf_value::Options;
use std::alloc::{AllocError, Global};

/// What markup comes to: nothing is shown for it, and it stands beside what is shown (Unicode TS
/// 35, Part 9, "Markup Resolution").
#[derive(Debug, Drop)]
pub struct MarkupValue {
    /// Its options by their identifiers, with their option texts, in the order of the source: those
    /// that aren't refused, but for `u:id`.
    pub options: Pairs,
    /// The id that `u:id` gives its part.
    pub id: Option<Text>,
}

/// Options by their identifiers, with their option texts.
pub fn named_options(alloc: Global, given: Options) -> Result<Pairs, AllocError>
    ensures { IfOk result (λ pairs. pairs ≡ settings.named_options given) }
{
    let mut pairs = List::with_capacity(alloc, given.len())?;
    for option in given.into_members() {
        let name = identifier_text(alloc, &option.name)?;
        pairs.push(Pair {
            name,
            value: option.value,
        })?;
    }
    Ok(pairs)
}
