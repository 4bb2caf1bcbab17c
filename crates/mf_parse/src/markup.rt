//! Markup and placeholders, one function a production.
ghost use Rattle.std.specs.Prelude.{◌≡◌, Some, None, IfOk, IsErrOf};
ghost use Rattle.mf_parse.specs.Computed.{closing_at, form_at, inner_placeholder_at, opening_at, placeholder_at};

use crate::error::ParseError;
use crate::expression::{attributes, identifier, inner_expression, last_attributes, options};
use crate::spaces::{expect, opening_brace};
use mf_lex::Cursor;
use mf_tree::{Form, Markup, Piece};
use std::alloc::Global;

/// `o ["/"] "}"`
#[tactic(auto, unfolding(crate::specs::Computed::form_at, crate::specs::Computed::behind_brace))]
fn form(cursor: &mut Cursor) -> Result<Form, ParseError>
    ensures found { IfOk result (λ form. form_at cursor.old.left ≡ Some (form, cursor.new.left)) }
    ensures none { IsErrOf result ParseError.Syntax → form_at cursor.old.left ≡ None }
{
    cursor.o();
    let form = if cursor.one('/') {
        Form::Standalone
    } else {
        Form::Start
    };
    expect(cursor, '}')?;
    Ok(form)
}

/// Markup behind its `#`.
#[tactic(auto, unfolding(crate::specs::Computed::opening_at))]
fn opening(alloc: Global, cursor: &mut Cursor) -> Result<Markup, ParseError>
    ensures found { IfOk result (λ markup. opening_at cursor.old.left ≡ Some
        (markup, cursor.new.left)) }
    ensures none { IsErrOf result ParseError.Syntax → opening_at cursor.old.left ≡ None }
{
    let name = identifier(alloc, cursor)?;
    let options = options(alloc, cursor)?;
    let attributes = attributes(alloc, cursor)?;
    let form = form(cursor)?;
    Ok(Markup {
        form,
        name,
        options,
        attributes,
    })
}

/// Markup behind its `/`.
#[tactic(auto, unfolding(crate::specs::Computed::closing_at))]
fn closing(alloc: Global, cursor: &mut Cursor) -> Result<Markup, ParseError>
    ensures found { IfOk result (λ markup. closing_at cursor.old.left ≡ Some
        (markup, cursor.new.left)) }
    ensures none { IsErrOf result ParseError.Syntax → closing_at cursor.old.left ≡ None }
{
    let name = identifier(alloc, cursor)?;
    let options = options(alloc, cursor)?;
    let attributes = last_attributes(alloc, cursor)?;
    Ok(Markup {
        form: Form::End,
        name,
        options,
        attributes,
    })
}

/// A placeholder behind its brace and the space.
#[tactic(auto, unfolding(crate::specs::Computed::inner_placeholder_at))]
fn inner_placeholder(alloc: Global, cursor: &mut Cursor) -> Result<Piece, ParseError>
    ensures found { IfOk result (λ piece. inner_placeholder_at cursor.old.left ≡ Some
        (piece, cursor.new.left)) }
    ensures none { IsErrOf result ParseError.Syntax → inner_placeholder_at cursor.old.left ≡ None }
{
    if cursor.one('#') {
        return Ok(Piece::Markup(opening(alloc, cursor)?));
    }
    if cursor.one('/') {
        return Ok(Piece::Markup(closing(alloc, cursor)?));
    }
    Ok(Piece::Expression(inner_expression(alloc, cursor)?))
}

/// `placeholder`
#[tactic(auto, unfolding(crate::specs::Computed::placeholder_at))]
pub fn placeholder(alloc: Global, cursor: &mut Cursor) -> Result<Piece, ParseError>
    ensures found { IfOk result (λ piece. placeholder_at cursor.old.left ≡ Some
        (piece, cursor.new.left)) }
    ensures none { IsErrOf result ParseError.Syntax → placeholder_at cursor.old.left ≡ None }
{
    opening_brace(cursor)?;
    inner_placeholder(alloc, cursor)
}
