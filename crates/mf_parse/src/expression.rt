//! Expressions and what they are made of, one function a production.
ghost use Rattle.std.specs.Prelude.{◌≡◌, Some, None, IfOk, IsErrOf};
ghost use Rattle.std.specs.Option.{option_map};
ghost use Rattle.mf_lex.specs.Computed.{identifier_at, literal_at, name_at};
ghost use Rattle.mf_tree.specs.Names.{named};
ghost use Rattle.mf_parse.specs.Computed.{identifier_of, attribute_at, attribute_value_at, attributes_at, expression_at, function_at, identifier_node_at, inner_expression_at, last_attributes_at, of_function_at, of_literal_at, of_variable_at, option_at, option_value_at, options_at, rest_of_expression_at, spaced_function_at, variable_at};

use crate::error::ParseError;
use crate::spaces::{
    closing_brace, equals, expect, is_next, opening_brace, pass_space_before,
    pass_space_before_name,
};
use mf_lex::{Cursor, Ident};
use mf_text::Text;
use mf_tree::{
    Attribute, Attributes, Call, Expression, Identifier, Name, Operand, OptionNode, OptionNodes,
    OptionValue,
};
use std::alloc::{AllocError, Global};

/// `identifier`
#[tactic(auto, unfolding(crate::specs::Computed::identifier_node_at))]
pub fn identifier(alloc: Global, cursor: &mut Cursor) -> Result<Identifier, ParseError>
    ensures found { IfOk result (λ identifier. identifier_node_at cursor.old.left ≡ Some
        (identifier, cursor.new.left)) }
    ensures none { IsErrOf result ParseError.Syntax → identifier_node_at cursor.old.left ≡ None }
{
    let ident = ident(alloc, cursor)?;
    let identifier = identifier_of(alloc, ident)?;
    Ok(identifier)
}

/// `identifier`, as it is spelled.
fn ident(alloc: Global, cursor: &mut Cursor) -> Result<Ident, ParseError>
    ensures found { IfOk result (λ ident. identifier_at cursor.old.left ≡ Some
        (ident, cursor.new.left)) }
    ensures none { IsErrOf result ParseError.Syntax → identifier_at cursor.old.left ≡ None }
{
    let Some(ident) = cursor.identifier(alloc)? else {
        return Err(ParseError::Syntax);
    };
    Ok(ident)
}

/// The node of an identifier.
#[tactic(auto, using(crate::proofs::Choices::identifier_is))]
fn identifier_of(alloc: Global, ident: Ident) -> Result<Identifier, AllocError>
    ensures { IfOk result (λ identifier. identifier ≡ identifier_of ident) }
{
    let name = Name::new(alloc, ident.name)?;
    let namespace = namespace_of(alloc, ident.namespace)?;
    Ok(Identifier { namespace, name })
}

#[tactic(auto, using(crate::proofs::Choices::named_some))]
fn namespace_of(alloc: Global, namespace: Option<Text>) -> Result<Option<Name>, AllocError>
    ensures { IfOk result (λ found. found ≡ option_map named namespace) }
{
    match namespace {
        Some(spelled) => {
            let name = Name::new(alloc, spelled)?;
            Ok(Some(name))
        }
        None => Ok(None),
    }
}

/// `variable`
#[tactic(auto, unfolding(crate::specs::Computed::variable_at))]
pub fn variable(alloc: Global, cursor: &mut Cursor) -> Result<Name, ParseError>
    ensures found { IfOk result (λ name. variable_at cursor.old.left ≡ Some
        (name, cursor.new.left)) }
    ensures none { IsErrOf result ParseError.Syntax → variable_at cursor.old.left ≡ None }
{
    expect(cursor, '$')?;
    let spelled = bare_name(alloc, cursor)?;
    let name = Name::new(alloc, spelled)?;
    Ok(name)
}

/// `name`, without its marks.
fn bare_name(alloc: Global, cursor: &mut Cursor) -> Result<Text, ParseError>
    ensures found { IfOk result (λ spelled. name_at cursor.old.left ≡ Some
        (spelled, cursor.new.left)) }
    ensures none { IsErrOf result ParseError.Syntax → name_at cursor.old.left ≡ None }
{
    let Some(spelled) = cursor.name(alloc)? else {
        return Err(ParseError::Syntax);
    };
    Ok(spelled)
}

/// `literal`
pub fn literal(alloc: Global, cursor: &mut Cursor) -> Result<Text, ParseError>
    ensures found { IfOk result (λ value. literal_at cursor.old.left ≡ Some
        (value, cursor.new.left)) }
    ensures none { IsErrOf result ParseError.Syntax → literal_at cursor.old.left ≡ None }
{
    cursor.literal(alloc)?.ok_or(ParseError::Syntax)
}

/// `literal / variable`
#[tactic(auto, unfolding(crate::specs::Computed::option_value_at))]
fn option_value(alloc: Global, cursor: &mut Cursor) -> Result<OptionValue, ParseError>
    ensures found { IfOk result (λ value. option_value_at cursor.old.left ≡ Some
        (value, cursor.new.left)) }
    ensures none { IsErrOf result ParseError.Syntax → option_value_at cursor.old.left ≡ None }
{
    if is_next(cursor, '$') {
        return Ok(OptionValue::Variable(variable(alloc, cursor)?));
    }
    Ok(OptionValue::Literal(literal(alloc, cursor)?))
}

/// `option`
#[tactic(auto, unfolding(crate::specs::Computed::option_at))]
fn option(alloc: Global, cursor: &mut Cursor) -> Result<OptionNode, ParseError>
    ensures found { IfOk result (λ option. option_at cursor.old.left ≡ Some
        (option, cursor.new.left)) }
    ensures none { IsErrOf result ParseError.Syntax → option_at cursor.old.left ≡ None }
{
    let name = identifier(alloc, cursor)?;
    equals(cursor)?;
    let value = option_value(alloc, cursor)?;
    Ok(OptionNode { name, value })
}

/// `*(s option)`
#[tactic(auto, using(crate::proofs::Gathers::option_none, crate::proofs::Gathers::gathered_start))]
pub fn options(alloc: Global, cursor: &mut Cursor) -> Result<OptionNodes, ParseError>
    ensures found { IfOk result (λ options. options_at cursor.old.left ≡ Some
        (options, cursor.new.left)) }
    ensures none { IsErrOf result ParseError.Syntax → options_at cursor.old.left ≡ None }
{
    let mut options = OptionNodes::new(alloc);
    while pass_space_before_name(cursor) {
        let option = option(alloc, cursor)?;
        options.push(option)?;
    }
    Ok(options)
}

/// `[o "=" o literal]`
#[tactic(auto, unfolding(crate::specs::Computed::attribute_value_at))]
fn attribute_value(alloc: Global, cursor: &mut Cursor) -> Result<Option<Text>, ParseError>
    ensures found { IfOk result (λ value. attribute_value_at cursor.old.left ≡ Some
        (value, cursor.new.left)) }
    ensures none { IsErrOf result ParseError.Syntax → attribute_value_at cursor.old.left ≡ None }
{
    let mut ahead = cursor.save();
    ahead.o();
    if !is_next(&ahead, '=') {
        return Ok(None);
    }
    equals(cursor)?;
    let literal = literal(alloc, cursor)?;
    Ok(Some(literal))
}

/// `attribute`
#[tactic(auto, unfolding(crate::specs::Computed::attribute_at))]
fn attribute(alloc: Global, cursor: &mut Cursor) -> Result<Attribute, ParseError>
    ensures found { IfOk result (λ attribute. attribute_at cursor.old.left ≡ Some
        (attribute, cursor.new.left)) }
    ensures none { IsErrOf result ParseError.Syntax → attribute_at cursor.old.left ≡ None }
{
    expect(cursor, '@')?;
    let name = identifier(alloc, cursor)?;
    let value = attribute_value(alloc, cursor)?;
    Ok(Attribute { name, value })
}

/// `*(s attribute)`
#[tactic(auto, using(crate::proofs::Gathers::attribute_none, crate::proofs::Gathers::gathered_start))]
pub fn attributes(alloc: Global, cursor: &mut Cursor) -> Result<Attributes, ParseError>
    ensures found { IfOk result (λ attributes. attributes_at cursor.old.left ≡ Some
        (attributes, cursor.new.left)) }
    ensures none { IsErrOf result ParseError.Syntax → attributes_at cursor.old.left ≡ None }
{
    let mut attributes = Attributes::new(alloc);
    while pass_space_before(cursor, '@') {
        let attribute = attribute(alloc, cursor)?;
        attributes.push(attribute)?;
    }
    Ok(attributes)
}

/// `function`
#[tactic(auto, unfolding(crate::specs::Computed::function_at))]
fn function(alloc: Global, cursor: &mut Cursor) -> Result<Call, ParseError>
    ensures found { IfOk result (λ call. function_at cursor.old.left ≡ Some
        (call, cursor.new.left)) }
    ensures none { IsErrOf result ParseError.Syntax → function_at cursor.old.left ≡ None }
{
    expect(cursor, ':')?;
    let name = identifier(alloc, cursor)?;
    let options = options(alloc, cursor)?;
    Ok(Call { name, options })
}

/// `[s function]`
#[tactic(auto, unfolding(crate::specs::Computed::spaced_function_at))]
fn spaced_function(alloc: Global, cursor: &mut Cursor) -> Result<Option<Call>, ParseError>
    ensures found { IfOk result (λ call. spaced_function_at cursor.old.left ≡ Some
        (call, cursor.new.left)) }
    ensures none { IsErrOf result ParseError.Syntax → spaced_function_at cursor.old.left ≡ None }
{
    if !pass_space_before(cursor, ':') {
        return Ok(None);
    }
    let call = function(alloc, cursor)?;
    Ok(Some(call))
}

/// `*(s attribute) o "}"`
#[tactic(auto, unfolding(crate::specs::Computed::last_attributes_at))]
pub fn last_attributes(alloc: Global, cursor: &mut Cursor) -> Result<Attributes, ParseError>
    ensures found { IfOk result (λ attributes. last_attributes_at cursor.old.left ≡ Some
        (attributes, cursor.new.left)) }
    ensures none { IsErrOf result ParseError.Syntax → last_attributes_at cursor.old.left ≡ None }
{
    let attributes = attributes(alloc, cursor)?;
    closing_brace(cursor)?;
    Ok(attributes)
}

/// `[s function] *(s attribute) o "}"`
#[tactic(auto, unfolding(crate::specs::Computed::rest_of_expression_at))]
pub fn rest_of_expression(
    alloc: Global,
    cursor: &mut Cursor,
    operand: Operand,
) -> Result<Expression, ParseError>
    ensures found { IfOk result (λ expression. rest_of_expression_at operand cursor.old.left ≡ Some
        (expression, cursor.new.left)) }
    ensures none { IsErrOf result ParseError.Syntax → rest_of_expression_at operand cursor.old.left
        ≡ None }
{
    let function = spaced_function(alloc, cursor)?;
    let attributes = last_attributes(alloc, cursor)?;
    Ok(Expression {
        operand,
        function,
        attributes,
    })
}

/// `variable [s function] *(s attribute) o "}"`
#[tactic(auto, unfolding(crate::specs::Computed::of_variable_at))]
fn of_variable(alloc: Global, cursor: &mut Cursor) -> Result<Expression, ParseError>
    ensures found { IfOk result (λ expression. of_variable_at cursor.old.left ≡ Some
        (expression, cursor.new.left)) }
    ensures none { IsErrOf result ParseError.Syntax → of_variable_at cursor.old.left ≡ None }
{
    let name = variable(alloc, cursor)?;
    rest_of_expression(alloc, cursor, Operand::Variable(name))
}

/// `literal [s function] *(s attribute) o "}"`
#[tactic(auto, unfolding(crate::specs::Computed::of_literal_at))]
fn of_literal(alloc: Global, cursor: &mut Cursor) -> Result<Expression, ParseError>
    ensures found { IfOk result (λ expression. of_literal_at cursor.old.left ≡ Some
        (expression, cursor.new.left)) }
    ensures none { IsErrOf result ParseError.Syntax → of_literal_at cursor.old.left ≡ None }
{
    let value = literal(alloc, cursor)?;
    rest_of_expression(alloc, cursor, Operand::Literal(value))
}

/// `function *(s attribute) o "}"`
#[tactic(auto, unfolding(crate::specs::Computed::of_function_at))]
fn of_function(alloc: Global, cursor: &mut Cursor) -> Result<Expression, ParseError>
    ensures found { IfOk result (λ expression. of_function_at cursor.old.left ≡ Some
        (expression, cursor.new.left)) }
    ensures none { IsErrOf result ParseError.Syntax → of_function_at cursor.old.left ≡ None }
{
    let call = function(alloc, cursor)?;
    let attributes = last_attributes(alloc, cursor)?;
    Ok(Expression {
        operand: Operand::Absent,
        function: Some(call),
        attributes,
    })
}

/// An expression behind its brace and the space.
#[tactic(auto, unfolding(crate::specs::Computed::inner_expression_at))]
pub fn inner_expression(alloc: Global, cursor: &mut Cursor) -> Result<Expression, ParseError>
    ensures found { IfOk result (λ expression. inner_expression_at cursor.old.left ≡ Some
        (expression, cursor.new.left)) }
    ensures none { IsErrOf result ParseError.Syntax → inner_expression_at cursor.old.left ≡ None }
{
    if is_next(cursor, '$') {
        return of_variable(alloc, cursor);
    }
    if is_next(cursor, ':') {
        return of_function(alloc, cursor);
    }
    of_literal(alloc, cursor)
}

/// `expression`
#[tactic(auto, unfolding(crate::specs::Computed::expression_at))]
pub fn expression(alloc: Global, cursor: &mut Cursor) -> Result<Expression, ParseError>
    ensures found { IfOk result (λ expression. expression_at cursor.old.left ≡ Some
        (expression, cursor.new.left)) }
    ensures none { IsErrOf result ParseError.Syntax → expression_at cursor.old.left ≡ None }
{
    opening_brace(cursor)?;
    inner_expression(alloc, cursor)
}
