//! Expressions and what they are made of, one function a production.
ghost use Rattle.std.specs.Prelude.{◌≡◌, ◌++◌, OnOk};
ghost use Rattle.mf_tree.specs.Canonical.{attribute_source, attribute_value_source, attributes_source, expression_source, further_function_source, first_function_source, function_source, identifier_source, namespace_source, option_source, option_value_source, options_source, variable_source};

use crate::literal::push_literal;
use mf_text::Text;
use mf_tree::{
    Attribute, Attributes, Call, Expression, Identifier, Name, Operand, OptionNode, OptionNodes,
    OptionValue,
};
use std::alloc::AllocError;

/// `{`, the operand, the function, the attributes, `}`: each part after the first stands behind one
/// space.
pub fn push_expression(out: &mut Text, expression: &Expression) -> Result<(), AllocError>
    ensures { OnOk result (out.new ≡ out.old ++ expression_source expression.now) }
{
    out.push('{')?;
    match &expression.operand {
        Operand::Literal(value) => {
            push_literal(out, value)?;
            push_further_function(out, &expression.function)?;
        }
        Operand::Variable(name) => {
            push_variable(out, name)?;
            push_further_function(out, &expression.function)?;
        }
        Operand::Absent => push_first_function(out, &expression.function)?,
    }
    push_attributes(out, &expression.attributes)?;
    out.push('}')
}

/// A space and a function, if there is one.
fn push_further_function(out: &mut Text, function: &Option<Call>) -> Result<(), AllocError>
    ensures { OnOk result (out.new ≡ out.old ++ further_function_source function.now) }
{
    let Some(call) = function else {
        return Ok(());
    };
    out.push(' ')?;
    push_function(out, call)
}

/// A function, if there is one.
fn push_first_function(out: &mut Text, function: &Option<Call>) -> Result<(), AllocError>
    ensures { OnOk result (out.new ≡ out.old ++ first_function_source function.now) }
{
    let Some(call) = function else {
        return Ok(());
    };
    push_function(out, call)
}

fn push_function(out: &mut Text, call: &Call) -> Result<(), AllocError>
    ensures { OnOk result (out.new ≡ out.old ++ function_source call.now) }
{
    out.push(':')?;
    push_identifier(out, &call.name)?;
    push_options(out, &call.options)
}

/// Each option behind a space.
pub fn push_options(out: &mut Text, options: &OptionNodes) -> Result<(), AllocError>
    ensures { OnOk result (out.new ≡ out.old ++ options_source options.now) }
{
    for option in options.as_slice() {
        push_option(out, option)?;
    }
    Ok(())
}

fn push_option(out: &mut Text, option: &OptionNode) -> Result<(), AllocError>
    ensures { OnOk result (out.new ≡ out.old ++ option_source option.now) }
{
    out.push(' ')?;
    push_identifier(out, &option.name)?;
    out.push('=')?;
    push_option_value(out, &option.value)
}

fn push_option_value(out: &mut Text, value: &OptionValue) -> Result<(), AllocError>
    ensures { OnOk result (out.new ≡ out.old ++ option_value_source value.now) }
{
    match value {
        OptionValue::Literal(value) => push_literal(out, value),
        OptionValue::Variable(name) => push_variable(out, name),
    }
}

/// Each attribute behind a space.
pub fn push_attributes(out: &mut Text, attributes: &Attributes) -> Result<(), AllocError>
    ensures { OnOk result (out.new ≡ out.old ++ attributes_source attributes.now) }
{
    for attribute in attributes.as_slice() {
        push_attribute(out, attribute)?;
    }
    Ok(())
}

fn push_attribute(out: &mut Text, attribute: &Attribute) -> Result<(), AllocError>
    ensures { OnOk result (out.new ≡ out.old ++ attribute_source attribute.now) }
{
    out.push_str(" @")?;
    push_identifier(out, &attribute.name)?;
    push_attribute_value(out, &attribute.value)
}

fn push_attribute_value(out: &mut Text, value: &Option<Text>) -> Result<(), AllocError>
    ensures { OnOk result (out.new ≡ out.old ++ attribute_value_source value.now) }
{
    let Some(value) = value else {
        return Ok(());
    };
    out.push('=')?;
    push_literal(out, value)
}

pub fn push_identifier(out: &mut Text, identifier: &Identifier) -> Result<(), AllocError>
    ensures { OnOk result (out.new ≡ out.old ++ identifier_source identifier.now) }
{
    push_namespace(out, &identifier.namespace)?;
    out.push_str(identifier.name.spelled.as_str())
}

fn push_namespace(out: &mut Text, namespace: &Option<Name>) -> Result<(), AllocError>
    ensures { OnOk result (out.new ≡ out.old ++ namespace_source namespace.now) }
{
    let Some(namespace) = namespace else {
        return Ok(());
    };
    out.push_str(namespace.spelled.as_str())?;
    out.push(':')
}

pub fn push_variable(out: &mut Text, name: &Name) -> Result<(), AllocError>
    ensures { OnOk result (out.new ≡ out.old ++ variable_source name.now) }
{
    out.push('$')?;
    out.push_str(name.spelled.as_str())
}
