//! The keys of variants.
ghost use Rattle.std.specs.Prelude.{◌≡◌, ◌++◌, map, IfOk, OnOk};
ghost use Rattle.mf_tree.specs.Faults.{variant_key_mismatches, duplicate_variants};
ghost use Rattle.mf_check.specs.KeyValues.{key_value};

use crate::shown::show_number;
use mf_text::{Text, nfc};
use mf_tree::{Fault, Faults, Key, Kind, Name, Variant};
use std::alloc::{AllocError, Global};
use std::collections::BTreeSet;

/// Adds an error for each variant whose number of keys isn't the number of selectors.
pub fn add_key_mismatches(
    alloc: Global,
    found: &mut Faults,
    selectors: &[Name],
    variants: &[Variant],
) -> Result<(), AllocError>
    ensures { OnOk result (found.new ≡ found.old ++ variant_key_mismatches selectors.now
        variants.now) }
{
    for (at, variant) in variants.iter().enumerate() {
        if variant.keys.len() != selectors.len() {
            found.push(Fault {
                kind: Kind::VariantKeyMismatch,
                of: show_number(alloc, at)?,
            })?;
        }
    }
    Ok(())
}

/// Adds an error for each variant whose keys are those of an earlier one.
pub fn add_duplicate_variants(
    alloc: Global,
    found: &mut Faults,
    variants: &[Variant],
) -> Result<(), AllocError>
    ensures { OnOk result (found.new ≡ found.old ++ duplicate_variants variants.now) }
{
    let mut seen = BTreeSet::new(alloc);
    for (at, variant) in variants.iter().enumerate() {
        let keys = key_values(alloc, variant.keys.as_slice())?;
        let is_new = seen.insert(keys)?;
        if !is_new {
            found.push(Fault {
                kind: Kind::DuplicateVariant,
                of: show_number(alloc, at)?,
            })?;
        }
    }
    Ok(())
}

/// What keys are compared by: the Normalization Form C of a literal, and nothing for `*`.
fn key_values(alloc: Global, keys: &[Key]) -> Result<Vec<Option<Text>>, AllocError>
    ensures { IfOk result (λ values. values.items ≡ map key_value keys.now) }
{
    let mut values = Vec::with_capacity(alloc, keys.len())?;
    for key in keys {
        values.push(key_value(alloc, key)?)?;
    }
    Ok(values)
}

fn key_value(alloc: Global, key: &Key) -> Result<Option<Text>, AllocError>
    ensures { IfOk result (λ value. value ≡ key_value key.now) }
{
    match key {
        Key::Star => Ok(None),
        Key::Literal(text) => Ok(Some(nfc(alloc, text.as_str())?)),
    }
}
