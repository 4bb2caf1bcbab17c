//! A message formatted.
ghost use Rattle.std.specs.Prelude.{◌≡◌, IfOk};
ghost use Rattle.mf_answer.specs.Messages as messages;
ghost use Rattle.mf_answer.specs.Messages.{ShowsMessage};
ghost use Rattle.mf_render.specs.Showing.{shown_of, CanShow, Finds};
ghost use Rattle.mf_resolve.specs.Gathering.{Gathers};
ghost use Rattle.mf_select.specs.Choosing.{TellsKeys};
ghost use Rattle.mf_value.specs.ErrorLists.{no_calls};

use crate::pattern::pattern_parts;
use mf_locale::LocaleRecord;
use mf_parts::{Part, Parts, push_isolated};
use mf_resolve::Scope;
use mf_select::choose;
use mf_text::{Arguments, Text};
use mf_tree::{Body, Fault, Faults, Message, Pattern};
use mf_value::Functions;
use std::alloc::{AllocError, Global};

/// A formatted message.
#[derive(Debug, Drop)]
pub struct Formatted {
    /// Its parts, each value between the isolates that it gets.
    pub parts: Parts,
    /// Its errors in the order of their resolution, each where it first arose.
    pub faults: Faults,
}

/// A message without check errors, formatted with a locale record and functions for the arguments
/// of a request.
pub fn format_message<F: Functions>(
    alloc: Global,
    functions: &F,
    record: &LocaleRecord,
    message: &Message,
    arguments: &Arguments,
) -> Result<Formatted, AllocError>
    requires can { CanShow message.now.body }
    requires tells { TellsKeys (F.meaning functions.now).rank }
    ensures { IfOk result (λ formatted. ShowsMessage «record».now (F.meaning functions.now)
        arguments.now message.now (shown_of formatted)) }
{
    let mut scope = Scope::new(alloc, &message.declarations, arguments)?;
    let pattern = chosen_pattern(alloc, &mut scope, functions, &message.body)?;
    let parts = pattern_parts(alloc, &mut scope, functions, record, pattern)?;
    Ok(Formatted {
        parts,
        faults: scope.into_faults(),
    })
}

/// The pattern that is shown.
fn chosen_pattern<'a, F: Functions>(
    alloc: Global,
    scope: &mut Scope<'a>,
    functions: &F,
    body: &'a Body,
) -> Result<&'a Pattern, AllocError>
    requires can { CanShow body.now }
    requires tells { TellsKeys (F.meaning functions.now).rank }
    requires gathers { Gathers (F.meaning functions.now) scope.old no_calls }
    ensures { IfOk result (λ pattern. Finds
        (F.meaning functions.now) scope.old scope.new body.now pattern.now) }
{
    match body {
        Body::Pattern(pattern) => Ok(pattern),
        Body::Match {
            selectors,
            variants,
        } => {
            let chosen = choose(alloc, scope, functions, selectors, variants)?;
            Ok(&variants.as_slice()[chosen].pattern)
        }
    }
}

/// What is shown for a source that makes no valid message: one fallback, and the errors.
pub fn format_invalid(
    alloc: Global,
    record: &LocaleRecord,
    faults: &Faults,
) -> Result<Formatted, AllocError>
    ensures { IfOk result (λ formatted. shown_of formatted
        ≡ messages.shown_invalid «record».now faults.now) }
{
    let source = replacement(alloc)?;
    let parts = push_isolated(Parts::new(alloc), Part::Fallback { source }, record.dir)?;
    Ok(Formatted {
        parts,
        faults: copied(alloc, faults)?,
    })
}

/// The source of the fallback of a message that isn't valid: U+FFFD.
fn replacement(alloc: Global) -> Result<Text, AllocError>
    ensures { IfOk result (λ text. text ≡ messages.replacement) }
{
    let mut text = Text::new(alloc);
    text.push('\u{fffd}')?;
    Ok(text)
}

/// The same errors once more.
fn copied(alloc: Global, faults: &Faults) -> Result<Faults, AllocError>
    ensures { IfOk result (λ copy. copy ≡ faults.now) }
{
    let mut copy = Faults::with_capacity(alloc, faults.len())?;
    for fault in faults.as_slice() {
        copy.push(Fault {
            kind: fault.kind,
            of: fault.of.clone()?,
        })?;
    }
    Ok(copy)
}
