//! Whole messages, and the one public call.
ghost use Rattle.std.specs.Prelude.{◌≡◌, ◌++◌, IfOk, OnOk};
ghost use Rattle.mf_tree.specs.Nodes.{IsMessage};
ghost use Rattle.mf_tree.specs.Grammar.{SpellsMessage};
ghost use Rattle.mf_tree.specs.Canonical.{body_source, canonical, complex_body_source, declaration_source, declarations_source, further_key_source, input_source, key_source, keys_source, local_source, matcher_source, selector_source, variant_source};
ghost use Rattle.std.specs.List.{flat_map};

use crate::expression::{push_expression, push_variable};
use crate::literal::push_literal;
use crate::pattern::{must_be_quoted, push_pattern, push_quoted_pattern};
use mf_text::Text;
use mf_tree::{
    Body, Declaration, Declarations, Expression, Key, Keys, Message, Name, Names, Variant, Variants,
};
use std::alloc::{AllocError, Global};

/// The canonical source of a message: the text that is printed for it, which spells it again.
pub fn print(alloc: Global, message: &Message) -> Result<Text, AllocError>
    requires node { IsMessage message.now }
    ensures canonical { IfOk result (λ source. source ≡ canonical message.now) }
    ensures spelled { IfOk result (λ source. SpellsMessage message.now source) }
{
    source_of(alloc, message)
}

/// The canonical source of a tree, be it a message or not.
pub fn source_of(alloc: Global, message: &Message) -> Result<Text, AllocError>
    ensures { IfOk result (λ source. source ≡ canonical message.now) }
{
    let mut out = Text::new(alloc);
    push_message(&mut out, message)?;
    Ok(out)
}

fn push_message(out: &mut Text, message: &Message) -> Result<(), AllocError>
    ensures { OnOk result (out.new ≡ out.old ++ canonical message.now) }
{
    if message.declarations.is_empty() {
        return push_body(out, &message.body);
    }
    push_declarations(out, &message.declarations)?;
    push_complex_body(out, &message.body)
}

/// A body without declarations before it.
fn push_body(out: &mut Text, body: &Body) -> Result<(), AllocError>
    ensures { OnOk result (out.new ≡ out.old ++ body_source body.now) }
{
    match body {
        Body::Pattern(pattern) if !must_be_quoted(pattern) => push_pattern(out, pattern),
        _ => push_complex_body(out, body),
    }
}

fn push_complex_body(out: &mut Text, body: &Body) -> Result<(), AllocError>
    ensures { OnOk result (out.new ≡ out.old ++ complex_body_source body.now) }
{
    match body {
        Body::Pattern(pattern) => push_quoted_pattern(out, pattern),
        Body::Match {
            selectors,
            variants,
        } => push_matcher(out, selectors, variants),
    }
}

fn push_declarations(out: &mut Text, declarations: &Declarations) -> Result<(), AllocError>
    ensures { OnOk result (out.new ≡ out.old ++ declarations_source declarations.now) }
{
    for declaration in declarations.as_slice() {
        push_declaration(out, declaration)?;
    }
    Ok(())
}

/// A declaration, and a line feed.
fn push_declaration(out: &mut Text, declaration: &Declaration) -> Result<(), AllocError>
    ensures { OnOk result (out.new ≡ out.old ++ declaration_source declaration.now) }
{
    match declaration {
        Declaration::Input { expression, .. } => push_input(out, expression)?,
        Declaration::Local { name, expression } => push_local(out, name, expression)?,
    }
    out.push('\n')
}

fn push_input(out: &mut Text, expression: &Expression) -> Result<(), AllocError>
    ensures { OnOk result (out.new ≡ out.old ++ input_source expression.now) }
{
    out.push_str(".input ")?;
    push_expression(out, expression)
}

fn push_local(out: &mut Text, name: &Name, expression: &Expression) -> Result<(), AllocError>
    ensures { OnOk result (out.new ≡ out.old ++ local_source name.now expression.now) }
{
    out.push_str(".local ")?;
    push_variable(out, name)?;
    out.push_str(" = ")?;
    push_expression(out, expression)
}

fn push_matcher(out: &mut Text, selectors: &Names, variants: &Variants) -> Result<(), AllocError>
    ensures { OnOk result (out.new ≡ out.old ++ matcher_source selectors.now variants.now) }
{
    out.push_str(".match")?;
    push_selectors(out, selectors)?;
    push_variants(out, variants)
}

/// Each selector behind a space.
fn push_selectors(out: &mut Text, selectors: &Names) -> Result<(), AllocError>
    ensures { OnOk result (out.new ≡ out.old ++ flat_map selector_source selectors.now) }
{
    for selector in selectors.as_slice() {
        push_selector(out, selector)?;
    }
    Ok(())
}

fn push_selector(out: &mut Text, selector: &Name) -> Result<(), AllocError>
    ensures { OnOk result (out.new ≡ out.old ++ selector_source selector.now) }
{
    out.push(' ')?;
    push_variable(out, selector)
}

/// Each variant behind a line feed.
fn push_variants(out: &mut Text, variants: &Variants) -> Result<(), AllocError>
    ensures { OnOk result (out.new ≡ out.old ++ flat_map variant_source variants.now) }
{
    for variant in variants.as_slice() {
        push_variant(out, variant)?;
    }
    Ok(())
}

fn push_variant(out: &mut Text, variant: &Variant) -> Result<(), AllocError>
    ensures { OnOk result (out.new ≡ out.old ++ variant_source variant.now) }
{
    out.push('\n')?;
    push_keys(out, &variant.keys)?;
    out.push(' ')?;
    push_quoted_pattern(out, &variant.pattern)
}

/// The keys with one space between them.
fn push_keys(out: &mut Text, keys: &Keys) -> Result<(), AllocError>
    ensures { OnOk result (out.new ≡ out.old ++ keys_source keys.now) }
{
    let Some((first, others)) = keys.as_slice().split_first() else {
        return Ok(());
    };
    push_key(out, first)?;
    push_further_keys(out, others)
}

/// Each key behind a space.
fn push_further_keys(out: &mut Text, keys: &[Key]) -> Result<(), AllocError>
    ensures { OnOk result (out.new ≡ out.old ++ flat_map further_key_source keys.now) }
{
    for key in keys {
        push_further_key(out, key)?;
    }
    Ok(())
}

fn push_further_key(out: &mut Text, key: &Key) -> Result<(), AllocError>
    ensures { OnOk result (out.new ≡ out.old ++ further_key_source key.now) }
{
    out.push(' ')?;
    push_key(out, key)
}

fn push_key(out: &mut Text, key: &Key) -> Result<(), AllocError>
    ensures { OnOk result (out.new ≡ out.old ++ key_source key.now) }
{
    match key {
        Key::Literal(value) => push_literal(out, value),
        Key::Star => out.push('*'),
    }
}
