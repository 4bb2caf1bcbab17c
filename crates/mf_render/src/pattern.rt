//! The parts of a pattern.
ghost use Rattle.std.specs.Prelude.{IfOk};
ghost use Rattle.mf_render.specs.Showing.{GivesMarkup, GivesPart, GivesParts};

use crate::part::value_part;
use mf_locale::LocaleRecord;
use mf_parts::{Part, Parts, push_isolated};
use mf_resolve::{Scope, identifier_text};
use mf_tree::{Markup, Pattern, Piece};
use mf_value::Functions;
use std::alloc::{AllocError, Global};

/// The marks that isolate a part.
const MARKS: usize = 2;

/// The parts of a pattern, each between the isolates that it gets in a message with this record.
pub fn pattern_parts<'a, F: Functions>(
    alloc: Global,
    scope: &mut Scope<'a>,
    functions: &F,
    record: &LocaleRecord,
    pattern: &'a Pattern,
) -> Result<Parts, AllocError>
    ensures { IfOk result (GivesParts «record».now
        (F.meaning functions.now) scope.old scope.new pattern.now) }
{
    let mut parts = Parts::with_capacity(alloc, most_parts(pattern.as_slice()))?;
    for piece in pattern.as_slice() {
        let part = piece_part(alloc, scope, functions, record, piece)?;
        parts = push_isolated(parts, part, record.dir)?;
    }
    Ok(parts)
}

/// The most parts that the pieces of a pattern have: a text has no marks. It is room, and no more
/// than that, since a list that is longer than a kilobyte comes from a slower part of the C
/// library's memory.
fn most_parts(pieces: &[Piece]) -> usize {
    let mut parts = pieces.len();
    for piece in pieces {
        if !matches!(piece, Piece::Text(_)) {
            parts = parts.saturating_add(MARKS);
        }
    }
    parts
}

/// The part of a piece.
fn piece_part<'a, F: Functions>(
    alloc: Global,
    scope: &mut Scope<'a>,
    functions: &F,
    record: &LocaleRecord,
    piece: &'a Piece,
) -> Result<Part, AllocError>
    ensures { IfOk result (GivesPart «record».now
        (F.meaning functions.now) scope.old scope.new piece.now) }
{
    match piece {
        Piece::Text(text) => Ok(Part::Text(text.clone()?)),
        Piece::Expression(expression) => {
            let value = scope.resolve_expression(alloc, functions, expression)?;
            value_part(alloc, record, value)
        }
        Piece::Markup(markup) => markup_part(alloc, scope, functions, markup),
    }
}

/// The part of markup.
fn markup_part<'a, F: Functions>(
    alloc: Global,
    scope: &mut Scope<'a>,
    functions: &F,
    markup: &'a Markup,
) -> Result<Part, AllocError>
    ensures { IfOk result (GivesMarkup (F.meaning functions.now) scope.old scope.new markup.now) }
{
    let value = scope.resolve_markup(alloc, functions, markup)?;
    Ok(Part::Markup {
        form: markup.form,
        name: identifier_text(alloc, &markup.name)?,
        options: value.options,
        id: value.id,
    })
}
