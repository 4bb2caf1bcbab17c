//! Expressions, step by step.

ghost use Rattle.std.specs.Prelude.{◌≡◌, ◌≤◌, ℕ, [], None, length, IfOk};
ghost use Rattle.std.specs.Option.{option_copied};
ghost use Rattle.mf_resolve.specs.Resolving as resolving;
ghost use Rattle.mf_resolve.specs.Resolving.{FindsOperand, IsHeld, ResolvesExpression, operand_of};
ghost use Rattle.mf_value.specs.Traces as traces;

use crate::scope::Scope;
use crate::sources::{fallback_source, variable_text};
use crate::values::{argument_value, fallback, plain_text};
use crate::variable::Source;
use mf_tree::{Expression, Operand};
use mf_value::{Content, Functions, Value};
use std::alloc::{AllocError, Global};

/// An operand that was resolved.
#[derive(Drop)]
pub enum Resolved {
    /// The expression has none.
    Absent,
    /// The value that is kept of the declaration at this place.
    Kept(usize),
    Made(Value),
}

impl<'a> Scope<'a> {
    /// The value of an expression: its operand is resolved where the declarations before a place
    /// count, its options where those before a place do.
    #[cycle(resolving)]
    pub fn expression_under<F: Functions>(
        &mut self,
        alloc: Global,
        functions: &F,
        operand_limit: usize,
        limit: usize,
        expression: &'a Expression,
    ) -> Result<Value, AllocError>
        requires operand { operand_limit ≤ limit }
        requires within { limit ≤ length self.old.declarations }
        ensures { IfOk result
            (ResolvesExpression (F.meaning functions.now) operand_limit limit self.old self.new
            expression.now) }
    {
        let operand = self.resolve_operand(alloc, functions, operand_limit, &expression.operand)?;
        if self.is_fallback(&operand) {
            return Ok(fallback(alloc, fallback_source(alloc, expression)?));
        }
        match &expression.function {
            Some(call) => self.resolve_call(alloc, functions, limit, expression, call, &operand),
            None => self.operand_or_fallback(alloc, expression, operand),
        }
    }

    #[cycle(resolving)]
    fn resolve_operand<F: Functions>(
        &mut self,
        alloc: Global,
        functions: &F,
        limit: usize,
        operand: &'a Operand,
    ) -> Result<Resolved, AllocError>
        requires within { limit ≤ length self.old.declarations }
        ensures resolved { IfOk result
            (FindsOperand (F.meaning functions.now) limit self.old self.new operand.now) }
        ensures held { IfOk result (λ resolved. IsHeld self.new.resolved resolved) }
    {
        match operand {
            Operand::Absent => Ok(Resolved::Absent),
            Operand::Literal(text) => Ok(Resolved::Made(plain_text(alloc, text.clone()?))),
            Operand::Variable(name) => match self.use_variable(alloc, functions, limit, name)? {
                Source::Declared(place) => Ok(Resolved::Kept(place)),
                Source::Argument(argued) => Ok(Resolved::Made(argument_value(
                    alloc,
                    functions.direction(),
                    argued,
                )?)),
                Source::Nothing => Ok(Resolved::Made(fallback(alloc, variable_text(alloc, name)?))),
            },
        }
    }

    /// The value of an operand, lent.
    pub fn operand_value<'b>(&'b self, operand: &'b Resolved) -> Option<&'b Value>
        ensures { option_copied result ≡ operand_of self.now.resolved operand.now }
    {
        match operand {
            Resolved::Absent => None,
            Resolved::Kept(place) => self.kept(*place),
            Resolved::Made(value) => Some(value),
        }
    }

    fn is_fallback(&self, operand: &Resolved) -> bool
        ensures { result ≡ resolving.is_fallback_value (operand_of self.now.resolved operand.now) }
    {
        match self.operand_value(operand) {
            Some(value) => matches!(value.content, Content::Fallback(_)),
            None => false,
        }
    }

    /// The value of an expression without a function: that of its operand, which it has.
    fn operand_or_fallback(
        &self,
        alloc: Global,
        expression: &Expression,
        operand: Resolved,
    ) -> Result<Value, AllocError>
        ensures { IfOk result (λ value. value ≡
            traces.operand_or (traces.fallback_source expression.now)
            (operand_of self.now.resolved operand)) }
    {
        match operand {
            Resolved::Made(value) => Ok(value),
            Resolved::Kept(place) => match self.kept(place) {
                Some(value) => value.clone(),
                None => Ok(fallback(alloc, fallback_source(alloc, expression)?)),
            },
            Resolved::Absent => Ok(fallback(alloc, fallback_source(alloc, expression)?)),
        }
    }
}
