//! Declarations, one function a production.
ghost use Rattle.std.specs.Prelude.{◌≡◌, true, false, Some, None, IfOk, IsErrOf, MatchOption};
ghost use Rattle.mf_parse.specs.Computed.{begins_declaration, declaration_at, declarations_at, input_at, local_at, local_rest};

use crate::error::ParseError;
use crate::expression::{expression, rest_of_expression, variable};
use crate::pattern::pass_word;
use crate::spaces::{equals, opening_brace};
use mf_lex::Cursor;
use mf_tree::{Declaration, Declarations, Name, Operand};
use std::alloc::Global;

/// An input declaration behind its word.
#[tactic(auto, unfolding(crate::specs::Computed::input_at))]
fn input(alloc: Global, cursor: &mut Cursor) -> Result<Declaration, ParseError>
    ensures found { IfOk result (λ declaration. input_at cursor.old.left ≡ Some
        (declaration, cursor.new.left)) }
    ensures none { IsErrOf result ParseError.Syntax → input_at cursor.old.left ≡ None }
{
    cursor.o();
    opening_brace(cursor)?;
    let name = variable(alloc, cursor)?;
    let operand = name.clone()?;
    let expression = rest_of_expression(alloc, cursor, Operand::Variable(operand))?;
    Ok(Declaration::Input { name, expression })
}

/// `variable o "=" o expression`
#[tactic(auto, unfolding(crate::specs::Computed::local_rest))]
fn local_rest(alloc: Global, cursor: &mut Cursor) -> Result<Declaration, ParseError>
    ensures found { IfOk result (λ declaration. local_rest cursor.old.left ≡ Some
        (declaration, cursor.new.left)) }
    ensures none { IsErrOf result ParseError.Syntax → local_rest cursor.old.left ≡ None }
{
    let name = variable(alloc, cursor)?;
    equals(cursor)?;
    let expression = expression(alloc, cursor)?;
    Ok(Declaration::Local { name, expression })
}

/// A local declaration behind its word.
#[tactic(auto, unfolding(crate::specs::Computed::local_at))]
fn local(alloc: Global, cursor: &mut Cursor) -> Result<Declaration, ParseError>
    ensures found { IfOk result (λ declaration. local_at cursor.old.left ≡ Some
        (declaration, cursor.new.left)) }
    ensures none { IsErrOf result ParseError.Syntax → local_at cursor.old.left ≡ None }
{
    if !cursor.s() {
        return Err(ParseError::Syntax);
    }
    local_rest(alloc, cursor)
}

/// `declaration`, if one is next.
#[tactic(auto, unfolding(crate::specs::Computed::declaration_at))]
fn declaration(alloc: Global, cursor: &mut Cursor) -> Result<Option<Declaration>, ParseError>
    ensures found { IfOk result (λ found. MatchOption found
        ((begins_declaration cursor.old.left ≡ false) × (cursor.new.left ≡ cursor.old.left))
        (λ declaration. (begins_declaration cursor.old.left ≡ true) × (declaration_at cursor.old.left ≡ Some (declaration, cursor.new.left)))) }
    ensures none { IsErrOf result ParseError.Syntax → (begins_declaration cursor.old.left ≡ true) ×
        (declaration_at cursor.old.left ≡ None) }
{
    if pass_word(cursor, &['.', 'i', 'n', 'p', 'u', 't']) {
        let declaration = input(alloc, cursor)?;
        return Ok(Some(declaration));
    }
    if pass_word(cursor, &['.', 'l', 'o', 'c', 'a', 'l']) {
        let declaration = local(alloc, cursor)?;
        return Ok(Some(declaration));
    }
    Ok(None)
}

/// `*(declaration o)`
#[tactic(auto, using(crate::proofs::Bodies::declaration_none, crate::proofs::Gathers::gathered_start))]
pub fn declarations(alloc: Global, cursor: &mut Cursor) -> Result<Declarations, ParseError>
    ensures found { IfOk result (λ declarations. declarations_at cursor.old.left ≡ Some
        (declarations, cursor.new.left)) }
    ensures none { IsErrOf result ParseError.Syntax → declarations_at cursor.old.left ≡ None }
{
    let mut declarations = Declarations::new(alloc);
    while let Some(declaration) = declaration(alloc, cursor)? {
        cursor.o();
        declarations.push(declaration)?;
    }
    Ok(declarations)
}
