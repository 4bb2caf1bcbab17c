//! The annotation of selectors.
ghost use Rattle.std.specs.Prelude.{◌≡◌, ◌++◌, Bool, Some, IfOk, OnOk};
ghost use Rattle.mf_tree.specs.declared.name.Name.{Name as NameNode};
ghost use Rattle.mf_tree.specs.Faults.{is_annotated, first_declaration, is_annotating, missing_selector_annotations};
ghost use Rattle.mf_check.specs.Annotations.{annotates, AreAlike, AreAnswers, HasFirst};

use crate::declarations::{expression_of, name_of};
use crate::shown::show_variable;
use mf_text::Text;
use mf_tree::{Declaration, Fault, Faults, Kind, Name, Operand};
use std::alloc::{AllocError, Global};
use std::collections::{BTreeMap, BTreeSet};

/// Adds an error for each selector that isn't annotated.
pub fn add_missing_annotations<'a>(
    alloc: Global,
    found: &mut Faults,
    declarations: &'a [Declaration],
    selectors: &'a [Name],
) -> Result<(), AllocError>
    ensures { OnOk result (found.new ≡ found.old ++ missing_selector_annotations declarations.now
        selectors.now) }
{
    let first = first_declarations(alloc, declarations)?;
    let mut answers = BTreeMap::new(alloc);
    for selector in selectors {
        if !is_annotated(alloc, declarations, &first, &mut answers, selector)? {
            found.push(Fault {
                kind: Kind::MissingSelectorAnnotation,
                of: show_variable(alloc, selector)?,
            })?;
        }
    }
    Ok(())
}

/// The first declaration of each variable, by the variable's value.
fn first_declarations<'a>(
    alloc: Global,
    declarations: &'a [Declaration],
) -> Result<BTreeMap<&'a Text, &'a Declaration>, AllocError>
    ensures { IfOk result (λ first. HasFirst declarations.now first) }
{
    let mut first = BTreeMap::new(alloc);
    for declaration in declarations {
        let value = &name_of(declaration).value;
        if !first.contains_key(&value) {
            first.insert(value, declaration)?;
        }
    }
    Ok(first)
}

/// Whether a variable is annotated. The answer is kept for each variable on the way to it, so that
/// none is passed again.
fn is_annotated<'a>(
    alloc: Global,
    declarations: &'a [Declaration],
    first: &BTreeMap<&'a Text, &'a Declaration>,
    answers: &mut BTreeMap<&'a Text, bool>,
    name: &'a Name,
) -> Result<bool, AllocError>
    requires first { HasFirst declarations.now first.now }
    requires answers { AreAnswers declarations.now answers.now }
    ensures told { IfOk result (λ annotated. annotated ≡ is_annotated declarations.now name.now) }
    ensures answers { OnOk result (AreAnswers declarations.now answers.new) }
{
    let mut path = Vec::new(alloc);
    let annotated = walk(alloc, declarations, first, answers, &mut path, name)?;
    for passed in &path {
        answers.insert(&passed.value, annotated)?;
    }
    Ok(annotated)
}

/// Whether a variable is annotated: goes from operand to operand until a declaration tells, or an
/// answer that is kept, or the path meets itself, which annotates nothing. Each variable that is
/// passed has the same answer. As many steps as there are declarations are enough.
fn walk<'a>(
    alloc: Global,
    declarations: &'a [Declaration],
    first: &BTreeMap<&'a Text, &'a Declaration>,
    answers: &BTreeMap<&'a Text, bool>,
    path: &mut Vec<&'a Name>,
    name: &'a Name,
) -> Result<bool, AllocError>
    requires first { HasFirst declarations.now first.now }
    requires answers { AreAnswers declarations.now answers.now }
    requires alike { AreAlike declarations.now name.now path.now.items }
    ensures told { IfOk result (λ annotated. annotated ≡ is_annotated declarations.now name.now) }
    ensures alike { OnOk result (AreAlike declarations.now name.now path.new.items) }
{
    let mut on_path = BTreeSet::new(alloc);
    let mut name = name;
    'walk: for _ in declarations {
        let value = &name.value;
        if let Some(answer) = answers.get(&value) {
            return Ok(*answer);
        }
        let is_new = on_path.insert(value)?;
        if !is_new {
            return Ok(false);
        }
        path.push(name)?;
        match annotation_of(declarations, first, name) {
            Annotation::Function => return Ok(true),
            Annotation::Nothing => return Ok(false),
            Annotation::Variable(operand) => name = operand,
        }
    }
    Ok(false)
}

/// What annotates a variable in its first declaration.
fn annotation_of<'a>(
    declarations: &'a [Declaration],
    first: &BTreeMap<&'a Text, &'a Declaration>,
    name: &'a Name,
) -> Annotation<'a>
    requires { HasFirst declarations.now first.now }
    ensures { (known : NameNode → Bool) → annotates known result ≡ is_annotating known
        (first_declaration declarations.now name.now) }
{
    let value = &name.value;
    match first.get(&value) {
        Some(declaration) => annotating(declaration),
        None => Annotation::Nothing,
    }
}

/// What annotates the variable of a declaration.
enum Annotation<'a> {
    Function,
    /// It is annotated where this variable is.
    Variable(&'a Name),
    Nothing,
}

fn annotating(declaration: &Declaration) -> Annotation<'_>
    ensures { (known : NameNode → Bool) → annotates known result ≡ is_annotating known
        (Some declaration.now) }
{
    let expression = expression_of(declaration);
    if expression.function.is_some() {
        return Annotation::Function;
    }
    match (declaration, &expression.operand) {
        (Declaration::Local { .. }, Operand::Variable(operand)) => Annotation::Variable(operand),
        _ => Annotation::Nothing,
    }
}
