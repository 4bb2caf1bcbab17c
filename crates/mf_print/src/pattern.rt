//! Patterns, and the markup in them.
ghost use Rattle.std.specs.Prelude.{◌≡◌, ◌++◌, chars, OnOk};
ghost use Rattle.mf_tree.specs.Canonical.{begins_with_full_stop, closing_source, markup_source, must_be_quoted, opening_source, pattern_source, piece_source, quoted_pattern_source};

use crate::expression::{push_attributes, push_expression, push_identifier, push_options};
use crate::literal::push_text;
use mf_text::{Text, is_bidi, is_ws};
use mf_tree::{Form, Markup, Pattern, Piece};
use std::alloc::AllocError;

/// A pattern between `{{` and `}}`.
pub fn push_quoted_pattern(out: &mut Text, pattern: &Pattern) -> Result<(), AllocError>
    ensures { OnOk result (out.new ≡ out.old ++ quoted_pattern_source pattern.now) }
{
    out.push_str("{{")?;
    push_pattern(out, pattern)?;
    out.push_str("}}")
}

/// The pieces of a pattern in order.
pub fn push_pattern(out: &mut Text, pattern: &Pattern) -> Result<(), AllocError>
    ensures { OnOk result (out.new ≡ out.old ++ pattern_source pattern.now) }
{
    for piece in pattern.as_slice() {
        push_piece(out, piece)?;
    }
    Ok(())
}

fn push_piece(out: &mut Text, piece: &Piece) -> Result<(), AllocError>
    ensures { OnOk result (out.new ≡ out.old ++ piece_source piece.now) }
{
    match piece {
        Piece::Text(text) => push_text(out, text),
        Piece::Expression(expression) => push_expression(out, expression),
        Piece::Markup(markup) => push_markup(out, markup),
    }
}

/// `{#` or `{/`, the identifier, options and attributes each behind a space, ` /` where it is
/// standalone, `}`.
fn push_markup(out: &mut Text, markup: &Markup) -> Result<(), AllocError>
    ensures { OnOk result (out.new ≡ out.old ++ markup_source markup.now) }
{
    out.push_str(opening(markup.form))?;
    push_identifier(out, &markup.name)?;
    push_options(out, &markup.options)?;
    push_attributes(out, &markup.attributes)?;
    out.push_str(closing(markup.form))
}

fn opening(form: Form) -> &'static str
    ensures { chars result.now ≡ opening_source form }
{
    match form {
        Form::Start | Form::Standalone => "{#",
        Form::End => "{/",
    }
}

fn closing(form: Form) -> &'static str
    ensures { chars result.now ≡ closing_source form }
{
    match form {
        Form::Start | Form::End => "}",
        Form::Standalone => " /}",
    }
}

/// Whether a pattern stands in braces also where it is a message of its own: where its first piece
/// is a text that begins with a full stop behind any white space and marks of direction.
pub fn must_be_quoted(pattern: &Pattern) -> bool
    ensures { result ≡ must_be_quoted pattern.now }
{
    match pattern.get(0) {
        Some(Piece::Text(text)) => begins_with_full_stop(text.as_str()),
        _ => false,
    }
}

fn begins_with_full_stop(text: &str) -> bool
    ensures { result ≡ begins_with_full_stop (chars text.now) }
{
    match text.chars().find(|c| !is_ws(*c) && !is_bidi(*c)) {
        Some(c) => c == '.',
        None => false,
    }
}
