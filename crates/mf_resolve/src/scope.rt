//! The scope of a message.

ghost use Rattle.std.specs.Prelude.{◌≡◌, IfOk, OnOk};
ghost use Rattle.mf_resolve.specs.Gathering.{Adds, GivesExpression, GivesMarkup, GivesVariable, Opens};
ghost use Rattle.mf_resolve.specs.Sources.{HasPlaces};

use crate::markup::{MarkupValue, named_options};
use crate::variable::first_places;
use mf_text::{Arguments, List, Text};
use mf_tree::{Declaration, Declarations, Expression, Fault, Faults, Markup, Name};
use mf_value::{Functions, Value};
use std::alloc::{AllocError, Global};
use std::collections::BTreeMap;
use std::marker::Model;

/// The declarations of a message and the arguments of a request, with what was resolved so far and
/// the errors of that.
///
/// After want of memory it is given up: no call on it promises anything then.
/// See DECISIONS 129.
#[derive(Drop)]
pub struct Scope<'a> {
    pub(crate) arguments: &'a Arguments,
    pub(crate) declarations: &'a [Declaration],
    /// The place of the first declaration of each variable.
    pub(crate) places: BTreeMap<&'a Text, usize>,
    /// What the declarations that were used came to, by their places.
    pub(crate) resolved: Vec<Option<Value>>,
    pub(crate) faults: Faults,
}

impl<'a> Model for Scope<'a> {
    ghost use Rattle.std.specs.Prelude.{◌≡◌, length};
    ghost use Rattle.mf_resolve.specs.Resolving.{ScopeState};
    ghost use Rattle.mf_resolve.specs.Sources.{HasPlaces};

    ghost Value = { ScopeState };

    ghost view = { λ s. record {
      arguments = s.arguments.now;
      declarations = s.declarations.now;
      resolved = s.resolved.items;
      faults = s.faults;
    } };

    ghost invariant = { λ s. HasPlaces s.declarations.now s.places
        × (length s.resolved.items ≡ length s.declarations.now) };
}

impl<'a> Scope<'a> {
    /// The scope of a message with these declarations, where nothing has been resolved.
    pub fn new(
        alloc: Global,
        declarations: &'a Declarations,
        arguments: &'a Arguments,
    ) -> Result<Scope<'a>, AllocError>
        ensures { IfOk result (λ scope. Opens scope declarations.now arguments.now) }
    {
        let declarations = declarations.as_slice();
        let places = first_places(alloc, declarations)?;
        let mut resolved = Vec::with_capacity(alloc, declarations.len())?;
        for _ in declarations {
            resolved.push(None)?;
        }
        Ok(Scope {
            arguments,
            declarations,
            places,
            resolved,
            faults: List::new(alloc),
        })
    }

    /// The value of an expression of the message's pattern, by the functions of the scope's other
    /// calls.
    pub fn resolve_expression<F: Functions>(
        &mut self,
        alloc: Global,
        functions: &F,
        expression: &'a Expression,
    ) -> Result<Value, AllocError>
        ensures { IfOk result
            (GivesExpression (F.meaning functions.now) self.old self.new expression.now) }
    {
        let limit = self.declarations.len();
        self.expression_under(alloc, functions, limit, limit, expression)
    }

    /// The value of a variable, by the functions of the scope's other calls.
    pub fn resolve_variable<F: Functions>(
        &mut self,
        alloc: Global,
        functions: &F,
        name: &'a Name,
    ) -> Result<Value, AllocError>
        ensures { IfOk result (GivesVariable (F.meaning functions.now) self.old self.new name.now) }
    {
        let limit = self.declarations.len();
        let source = self.use_variable(alloc, functions, limit, name)?;
        self.source_value(alloc, functions, name, &source)
    }

    /// What markup of the message's pattern comes to, by the functions of the scope's other calls.
    /// It has no direction, so
    /// `u:dir` is refused, as is any other option of the namespace `u` but `u:id`.
    pub fn resolve_markup<F: Functions>(
        &mut self,
        alloc: Global,
        functions: &F,
        markup: &'a Markup,
    ) -> Result<MarkupValue, AllocError>
        ensures { IfOk result (GivesMarkup (F.meaning functions.now) self.old self.new markup.now) }
    {
        let limit = self.declarations.len();
        let settings = self.resolve_options(
            alloc,
            functions,
            limit,
            false,
            markup.options.as_slice(),
        )?;
        let options = named_options(alloc, settings.given)?;
        Ok(MarkupValue {
            options,
            id: settings.id,
        })
    }

    /// Adds an error at a place of its own: that of a selector, or of a key.
    pub fn add(&mut self, fault: Fault) -> Result<(), AllocError>
        ensures { OnOk result (Adds self.old self.new fault) }
    {
        self.push_fault(fault.kind, fault.of)
    }

    /// The errors of what was resolved, each where it first arose, when nothing more is.
    pub fn into_faults(self) -> Faults
        ensures { result ≡ self.entry.faults }
    {
        self.faults
    }

    /// The errors of what was resolved, each where it first arose.
    pub fn faults(&self) -> &Faults
        ensures { result.now ≡ self.now.faults }
    {
        &self.faults
    }
}
