//! The variables that declarations bind.
ghost use Rattle.std.specs.Prelude.{◌≡◌, ◌++◌, ◌||◌, Bool, OnOk};
ghost use Rattle.mf_tree.specs.declared.name.Name.{Name as NameNode};
ghost use Rattle.mf_tree.specs.Equality.{is_same_name};
ghost use Rattle.mf_tree.specs.Faults.{duplicate_declarations, is_in_itself, is_in_operand, is_in_options, is_in_value, is_in_declaration, expression_of, name_of, call_options};
ghost use Rattle.mf_check.specs.Seen.{AreNamesSeen, AreNamesSeenToo};

use crate::shown::show_variable;
use mf_text::Text;
use mf_tree::{
    Call, Declaration, Expression, Fault, Faults, Kind, Name, Operand, OptionNode, OptionValue,
};
use std::alloc::{AllocError, Global};
use std::collections::BTreeSet;

/// Adds an error for each declaration that binds a variable which appears in an earlier one, or in
/// its own expression.
pub fn add_duplicate_declarations(
    alloc: Global,
    found: &mut Faults,
    declarations: &[Declaration],
) -> Result<(), AllocError>
    ensures { OnOk result (found.new ≡ found.old ++ duplicate_declarations declarations.now) }
{
    let mut seen = BTreeSet::new(alloc);
    for declaration in declarations {
        if is_duplicate(&seen, declaration) {
            found.push(Fault {
                kind: Kind::DuplicateDeclaration,
                of: show_variable(alloc, name_of(declaration))?,
            })?;
        }
        see_declaration(&mut seen, declaration)?;
    }
    Ok(())
}

/// Whether the variable that a declaration binds has been noted, or appears in its own expression.
fn is_duplicate<'a>(seen: &BTreeSet<&'a Text>, declaration: &'a Declaration) -> bool
    ensures { (test : NameNode → Bool) → AreNamesSeen test seen.now → result ≡
        (test (name_of declaration.now) || is_in_itself declaration.now) }
{
    is_seen(seen, name_of(declaration)) || is_in_itself(declaration)
}

/// The variable that a declaration binds.
pub fn name_of(declaration: &Declaration) -> &Name
    ensures { result.now ≡ name_of declaration.now }
{
    match declaration {
        Declaration::Input { name, .. } => name,
        Declaration::Local { name, .. } => name,
    }
}

/// What a declaration binds its variable to.
pub fn expression_of(declaration: &Declaration) -> &Expression
    ensures { result.now ≡ expression_of declaration.now }
{
    match declaration {
        Declaration::Input { expression, .. } => expression,
        Declaration::Local { expression, .. } => expression,
    }
}

/// Whether the variable that a declaration binds appears in its own expression; the operand of an
/// `.input` doesn't count.
fn is_in_itself(declaration: &Declaration) -> bool
    ensures { result ≡ is_in_itself declaration.now }
{
    match declaration {
        Declaration::Input { name, expression } => is_in_call(name, &expression.function),
        Declaration::Local { name, expression } => {
            is_in_operand(name, &expression.operand) || is_in_call(name, &expression.function)
        }
    }
}

fn is_in_operand(name: &Name, operand: &Operand) -> bool
    ensures { result ≡ is_in_operand name.now operand.now }
{
    match operand {
        Operand::Absent => false,
        Operand::Literal(_) => false,
        Operand::Variable(variable) => name.value == variable.value,
    }
}

fn is_in_call(name: &Name, call: &Option<Call>) -> bool
    ensures { result ≡ is_in_options name.now (call_options call.now) }
{
    match call {
        None => false,
        Some(call) => call
            .options
            .as_slice()
            .iter()
            .any(|option| is_in_value(name, &option.value)),
    }
}

fn is_in_value(name: &Name, value: &OptionValue) -> bool
    ensures { result ≡ is_in_value name.now value.now }
{
    match value {
        OptionValue::Literal(_) => false,
        OptionValue::Variable(variable) => name.value == variable.value,
    }
}

/// Whether the variable has been noted.
fn is_seen<'a>(seen: &BTreeSet<&'a Text>, name: &'a Name) -> bool
    ensures { (test : NameNode → Bool) → AreNamesSeen test seen.now → result ≡ test name.now }
{
    let value = &name.value;
    seen.contains(&value)
}

/// Notes a variable.
fn see_name<'a>(seen: &mut BTreeSet<&'a Text>, name: &'a Name) -> Result<(), AllocError>
    ensures { OnOk result (AreNamesSeenToo
        (λ other. is_same_name other name.now) seen.old seen.new) }
{
    seen.insert(&name.value)?;
    Ok(())
}

/// Notes all variables that appear in a declaration.
fn see_declaration<'a>(
    seen: &mut BTreeSet<&'a Text>,
    declaration: &'a Declaration,
) -> Result<(), AllocError>
    ensures { OnOk result (AreNamesSeenToo
        (λ name. is_in_declaration name declaration.now) seen.old seen.new) }
{
    let expression = expression_of(declaration);
    see_name(seen, name_of(declaration))?;
    see_operand(seen, &expression.operand)?;
    see_call(seen, &expression.function)
}

fn see_operand<'a>(seen: &mut BTreeSet<&'a Text>, operand: &'a Operand) -> Result<(), AllocError>
    ensures { OnOk result (AreNamesSeenToo
        (λ name. is_in_operand name operand.now) seen.old seen.new) }
{
    match operand {
        Operand::Absent => Ok(()),
        Operand::Literal(_) => Ok(()),
        Operand::Variable(variable) => see_name(seen, variable),
    }
}

fn see_call<'a>(seen: &mut BTreeSet<&'a Text>, call: &'a Option<Call>) -> Result<(), AllocError>
    ensures { OnOk result (AreNamesSeenToo
        (λ name. is_in_options name (call_options call.now)) seen.old seen.new) }
{
    match call {
        None => Ok(()),
        Some(call) => see_options(seen, call.options.as_slice()),
    }
}

fn see_options<'a>(
    seen: &mut BTreeSet<&'a Text>,
    options: &'a [OptionNode],
) -> Result<(), AllocError>
    ensures { OnOk result (AreNamesSeenToo
        (λ name. is_in_options name options.now) seen.old seen.new) }
{
    for option in options {
        see_value(seen, &option.value)?;
    }
    Ok(())
}

fn see_value<'a>(seen: &mut BTreeSet<&'a Text>, value: &'a OptionValue) -> Result<(), AllocError>
    ensures { OnOk result (AreNamesSeenToo (λ name. is_in_value name value.now) seen.old seen.new) }
{
    match value {
        OptionValue::Literal(_) => Ok(()),
        OptionValue::Variable(variable) => see_name(seen, variable),
    }
}
