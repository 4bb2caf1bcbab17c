//! The variant that fits every value.
ghost use Rattle.std.specs.Prelude.{◌≡◌, ◌++◌, OnOk};
ghost use Rattle.std.specs.List.{list_all, list_any};
ghost use Rattle.mf_tree.specs.Equality.{is_star};
ghost use Rattle.mf_tree.specs.Faults.{is_fallback, missing_fallback_variants};

use mf_text::Text;
use mf_tree::{Fault, Faults, Key, Kind, Name, Variant};
use std::alloc::{AllocError, Global};

/// Adds an error where no variant has as many keys as there are selectors and all of them `*`.
pub fn add_missing_fallback(
    alloc: Global,
    found: &mut Faults,
    selectors: &[Name],
    variants: &[Variant],
) -> Result<(), AllocError>
    ensures { OnOk result (found.new ≡ found.old ++ missing_fallback_variants selectors.now
        variants.now) }
{
    if has_fallback_variant(selectors, variants) {
        return Ok(());
    }
    found.push(Fault {
        kind: Kind::MissingFallbackVariant,
        of: Text::from(String::new(alloc)),
    })?;
    Ok(())
}

fn has_fallback_variant(selectors: &[Name], variants: &[Variant]) -> bool
    ensures { result ≡ list_any (is_fallback selectors.now) variants.now }
{
    variants
        .iter()
        .any(|variant| is_fallback(selectors, variant))
}

/// Whether a variant has a `*` for each selector, and no other key.
fn is_fallback(selectors: &[Name], variant: &Variant) -> bool
    ensures { result ≡ is_fallback selectors.now variant.now }
{
    variant.keys.len() == selectors.len() && are_stars(variant.keys.as_slice())
}

fn are_stars(keys: &[Key]) -> bool
    ensures { result ≡ list_all is_star keys.now }
{
    keys.iter().all(|key| is_star(key))
}

fn is_star(key: &Key) -> bool
    ensures { result ≡ is_star key.now }
{
    match key {
        Key::Star => true,
        Key::Literal(_) => false,
    }
}
