//! Variables: what they stand for.

ghost use Rattle.std.specs.Prelude.{◌≡◌, ◌<◌, ◌≤◌, ℕ, Some, length, slice_get, IfOk, OnOk};
ghost use Rattle.std.specs.Option.{option_copied};
ghost use Rattle.mf_resolve.specs.Resolving.{FindsVariable, IsKept, IsThere, ResolvesDeclaration, ResolvesPlace, with_error};
ghost use Rattle.mf_resolve.specs.Sources.{HasPlaces, IsFound, IsValueOf, kept_value};
ghost use Rattle.mf_tree.specs.Faults as faults;

use crate::scope::Scope;
use crate::sources::variable_text;
use crate::values::{argument_value, fallback};
use mf_text::{Argued, Text};
use mf_tree::{Declaration, Fault, Kind, Name};
use mf_value::{Functions, Value};
use std::alloc::{AllocError, Global};
use std::collections::BTreeMap;

/// What a variable stands for.
#[derive(Clone, Copy)]
pub enum Source<'a> {
    /// The declaration at this place.
    Declared(usize),
    Argument(&'a Argued),
    /// There is neither.
    Nothing,
}

/// The place of the first declaration of each variable.
pub fn first_places<'a>(
    alloc: Global,
    declarations: &'a [Declaration],
) -> Result<BTreeMap<&'a Text, usize>, AllocError>
    ensures { IfOk result (λ places. HasPlaces declarations.now places) }
{
    let mut places = BTreeMap::new(alloc);
    for (place, declaration) in declarations.iter().enumerate() {
        let value = &name_of(declaration).value;
        if !places.contains_key(&value) {
            places.insert(value, place)?;
        }
    }
    Ok(places)
}

/// The variable that a declaration binds.
fn name_of(declaration: &Declaration) -> &Name
    ensures { result.now ≡ faults.name_of declaration.now }
{
    match declaration {
        Declaration::Input { name, .. } => name,
        Declaration::Local { name, .. } => name,
    }
}

impl<'a> Scope<'a> {
    /// What a variable stands for where the declarations before a place count.
    fn source(&self, limit: usize, name: &'a Name) -> Source<'a>
        ensures { IsFound self.now.declarations self.now.arguments limit name.now result }
    {
        let value = &name.value;
        match self.places.get(&value) {
            Some(place) if *place < limit => Source::Declared(*place),
            _ => match self.arguments.find(value) {
                Some(argued) => Source::Argument(argued),
                None => Source::Nothing,
            },
        }
    }

    /// What a variable stands for: a declaration is resolved where it wasn't, and there is an error
    /// where it is nothing.
    #[cycle(resolving)]
    pub fn use_variable<F: Functions>(
        &mut self,
        alloc: Global,
        functions: &F,
        limit: usize,
        name: &'a Name,
    ) -> Result<Source<'a>, AllocError>
        requires within { limit ≤ length self.old.declarations }
        ensures there { IfOk result (λ source. IsThere self.new.resolved source) }
        ensures used { IfOk result
            (FindsVariable (F.meaning functions.now) limit self.old self.new name.now) }
    {
        let source = self.source(limit, name);
        match source {
            Source::Declared(place) => self.resolve_declaration(alloc, functions, place)?,
            Source::Argument(_) => {}
            Source::Nothing => self.push_fault(
                Kind::UnresolvedVariable,
                variable_text(alloc, name)?,
            )?,
        }
        Ok(source)
    }

    /// Keeps the value of a declaration, unless it is kept already.
    #[cycle(resolving)]
    fn resolve_declaration<F: Functions>(
        &mut self,
        alloc: Global,
        functions: &F,
        place: usize,
    ) -> Result<(), AllocError>
        requires within { place < length self.old.declarations }
        ensures kept { OnOk result (IsKept self.new.resolved place) }
        ensures resolved { OnOk result
            (ResolvesPlace (F.meaning functions.now) self.old self.new place) }
    {
        if self.resolved[place].is_some() {
            return Ok(());
        }
        let declarations = self.declarations;
        let value = self.declaration_value(alloc, functions, place, &declarations[place])?;
        self.resolved[place] = Some(value);
        Ok(())
    }

    /// The value of a declaration's expression. The operand of an `.input` is the argument.
    #[cycle(resolving)]
    fn declaration_value<F: Functions>(
        &mut self,
        alloc: Global,
        functions: &F,
        place: usize,
        declaration: &'a Declaration,
    ) -> Result<Value, AllocError>
        requires within { place ≤ length self.old.declarations }
        ensures { IfOk result
            (ResolvesDeclaration (F.meaning functions.now) place self.old self.new
            declaration.now) }
    {
        match declaration {
            Declaration::Input { expression, .. } => {
                self.expression_under(alloc, functions, 0, place, expression)
            }
            Declaration::Local { expression, .. } => {
                self.expression_under(alloc, functions, place, place, expression)
            }
        }
    }

    /// The value that is kept of the declaration at a place.
    pub fn kept(&self, place: usize) -> Option<&Value>
        ensures { option_copied result ≡ kept_value (slice_get self.now.resolved place) }
    {
        match self.resolved.get(place) {
            Some(kept) => kept.as_ref(),
            None => None,
        }
    }

    /// The value of what a variable stands for.
    pub fn source_value<F: Functions>(
        &self,
        alloc: Global,
        functions: &F,
        name: &Name,
        source: &Source<'a>,
    ) -> Result<Value, AllocError>
        ensures { IfOk result
            (IsValueOf (F.meaning functions.now).direction self.now.resolved name.now source.now) }
    {
        match source {
            Source::Declared(place) => match self.kept(*place) {
                Some(value) => value.clone(),
                None => Ok(fallback(alloc, variable_text(alloc, name)?)),
            },
            Source::Argument(argued) => argument_value(alloc, functions.direction(), argued),
            Source::Nothing => Ok(fallback(alloc, variable_text(alloc, name)?)),
        }
    }

    /// One error more.
    pub fn push_fault(&mut self, kind: Kind, of: Text) -> Result<(), AllocError>
        ensures { OnOk result (self.new ≡ with_error self.old (record { kind = kind; of = of })) }
    {
        self.faults.push(Fault { kind, of })
    }
}
