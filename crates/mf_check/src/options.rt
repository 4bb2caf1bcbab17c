//! The options of functions and markup.
ghost use Rattle.std.specs.Prelude.{◌≡◌, ◌++◌, map, OnOk};
ghost use Rattle.std.specs.List.{flat_map};
ghost use Rattle.mf_tree.specs.Faults.{duplicate_option_names, duplicate_options, call_options, declaration_options, pattern_options, piece_options, variant_options};
ghost use Rattle.mf_check.specs.Seen.{AreValuesOf};

use crate::shown::show_identifier;
use mf_text::Text;
use mf_tree::{
    Body, Call, Declaration, Fault, Faults, Identifier, Kind, Message, OptionNode, Piece, Variant,
};
use std::alloc::{AllocError, Global};
use std::collections::BTreeSet;

/// Adds an error for each option whose identifier equals an earlier one of the same function or
/// markup.
pub fn add_duplicate_option_names(
    alloc: Global,
    found: &mut Faults,
    message: &Message,
) -> Result<(), AllocError>
    ensures { OnOk result (found.new ≡ found.old ++ duplicate_option_names message.now) }
{
    add_in_declarations(alloc, found, message.declarations.as_slice())?;
    match &message.body {
        Body::Pattern(pattern) => add_in_pattern(alloc, found, pattern.as_slice()),
        Body::Match { variants, .. } => add_in_variants(alloc, found, variants.as_slice()),
    }
}

fn add_in_declarations(
    alloc: Global,
    found: &mut Faults,
    declarations: &[Declaration],
) -> Result<(), AllocError>
    ensures { OnOk result (found.new ≡ found.old ++ flat_map duplicate_options
        (map declaration_options declarations.now)) }
{
    for declaration in declarations {
        let (Declaration::Input { expression, .. } | Declaration::Local { expression, .. }) =
            declaration;
        add_in_call(alloc, found, &expression.function)?;
    }
    Ok(())
}

fn add_in_variants(
    alloc: Global,
    found: &mut Faults,
    variants: &[Variant],
) -> Result<(), AllocError>
    ensures { OnOk result (found.new ≡ found.old ++ flat_map duplicate_options
        (flat_map variant_options variants.now)) }
{
    for variant in variants {
        add_in_pattern(alloc, found, variant.pattern.as_slice())?;
    }
    Ok(())
}

fn add_in_pattern(alloc: Global, found: &mut Faults, pieces: &[Piece]) -> Result<(), AllocError>
    ensures { OnOk result (found.new ≡ found.old ++ flat_map duplicate_options
        (pattern_options pieces.now)) }
{
    for piece in pieces {
        add_in_piece(alloc, found, piece)?;
    }
    Ok(())
}

fn add_in_piece(alloc: Global, found: &mut Faults, piece: &Piece) -> Result<(), AllocError>
    ensures { OnOk result (found.new ≡ found.old ++ duplicate_options (piece_options piece.now)) }
{
    match piece {
        Piece::Text(_) => Ok(()),
        Piece::Expression(expression) => add_in_call(alloc, found, &expression.function),
        Piece::Markup(markup) => add_in_options(alloc, found, markup.options.as_slice()),
    }
}

fn add_in_call(alloc: Global, found: &mut Faults, call: &Option<Call>) -> Result<(), AllocError>
    ensures { OnOk result (found.new ≡ found.old ++ duplicate_options (call_options call.now)) }
{
    match call {
        None => Ok(()),
        Some(call) => add_in_options(alloc, found, call.options.as_slice()),
    }
}

fn add_in_options(
    alloc: Global,
    found: &mut Faults,
    options: &[OptionNode],
) -> Result<(), AllocError>
    ensures { OnOk result (found.new ≡ found.old ++ duplicate_options options.now) }
{
    let mut seen = BTreeSet::new(alloc);
    for option in options {
        let is_new = seen.insert(identifier_value(&option.name))?;
        if !is_new {
            found.push(Fault {
                kind: Kind::DuplicateOptionName,
                of: show_identifier(alloc, &option.name)?,
            })?;
        }
    }
    Ok(())
}

/// What identifiers are compared by.
fn identifier_value<'a>(identifier: &'a Identifier) -> (Option<&'a Text>, &'a Text)
    ensures { AreValuesOf result identifier.now }
{
    let namespace = match &identifier.namespace {
        Some(namespace) => Some(&namespace.value),
        None => None,
    };
    (namespace, &identifier.name.value)
}
