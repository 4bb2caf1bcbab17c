ghost use Rattle.std.specs.Prelude.{◌≡◌, ◌++◌, IfOk, OnOk};
ghost use Rattle.mf_tree.specs.Faults.{faults, selection_faults, body_duplicates};

use crate::declarations::add_duplicate_declarations;
use crate::fallback::add_missing_fallback;
use crate::options::add_duplicate_option_names;
use crate::selectors::add_missing_annotations;
use crate::variants::{add_duplicate_variants, add_key_mismatches};
use mf_text::List;
use mf_tree::{Body, Declaration, Faults, Message};
use std::alloc::{AllocError, Global};

/// The errors that make a message invalid: by classes in their order, and within a class in the
/// order of the source.
///
/// Names, identifiers and literal keys are compared by their Normalization Form C. The cost is near
/// linear in the size of the message.
pub fn faults(alloc: Global, message: &Message) -> Result<Faults, AllocError>
    ensures { IfOk result (λ found. found ≡ faults message.now) }
{
    let declarations = message.declarations.as_slice();
    let mut found = List::new(alloc);
    add_selection_faults(alloc, &mut found, declarations, &message.body)?;
    add_duplicate_declarations(alloc, &mut found, declarations)?;
    add_duplicate_option_names(alloc, &mut found, message)?;
    add_body_duplicates(alloc, &mut found, &message.body)?;
    Ok(found)
}

/// Adds what is wrong with the variants and selectors of a matcher, but for equal variants.
fn add_selection_faults(
    alloc: Global,
    found: &mut Faults,
    declarations: &[Declaration],
    body: &Body,
) -> Result<(), AllocError>
    ensures { OnOk result (found.new ≡ found.old ++ selection_faults declarations.now body.now) }
{
    match body {
        Body::Pattern(_) => Ok(()),
        Body::Match {
            selectors,
            variants,
        } => {
            let selectors = selectors.as_slice();
            let variants = variants.as_slice();
            add_key_mismatches(alloc, found, selectors, variants)?;
            add_missing_fallback(alloc, found, selectors, variants)?;
            add_missing_annotations(alloc, found, declarations, selectors)
        }
    }
}

/// Adds an error for each variant of a matcher that an earlier one equals.
fn add_body_duplicates(alloc: Global, found: &mut Faults, body: &Body) -> Result<(), AllocError>
    ensures { OnOk result (found.new ≡ found.old ++ body_duplicates body.now) }
{
    match body {
        Body::Pattern(_) => Ok(()),
        Body::Match { variants, .. } => add_duplicate_variants(alloc, found, variants.as_slice()),
    }
}
