//! Calls of functions.

ghost use Rattle.std.specs.Prelude.{◌≡◌, ◌<◌, ◌≤◌, ◌++◌, ℕ, Some, length, IfOk, OnOk};
ghost use Rattle.mf_resolve.specs.Refusals.{AreMarks, refused_errors};
ghost use Rattle.mf_resolve.specs.Resolving.{Ends, IsHeld, ResolvesCall, operand_of};
ghost use Rattle.mf_value.specs.Meaning.{IsNoFallback};

use crate::expression::Resolved;
use crate::scope::Scope;
use crate::settings::Settings;
use crate::sources::{fallback_source, function_source, identifier_text};
use crate::values::fallback;
use mf_text::Text;
use mf_tree::{Call, Expression, Fault, Faults, Kind};
use mf_value::{CallFault, CallFaults, Called, Functions, Options, Value};
use std::alloc::{AllocError, Global};

impl<'a> Scope<'a> {
    /// The value of an expression with a function, whose operand is no fallback.
    #[cycle(resolving)]
    pub fn resolve_call<F: Functions>(
        &mut self,
        alloc: Global,
        functions: &F,
        limit: usize,
        expression: &'a Expression,
        call: &'a Call,
        operand: &Resolved,
    ) -> Result<Value, AllocError>
        requires within { limit ≤ length self.old.declarations }
        requires held { IsHeld self.old.resolved operand.now }
        requires no_fallback { IsNoFallback (operand_of self.old.resolved operand.now) }
        ensures { IfOk result
            (ResolvesCall (F.meaning functions.now) limit self.old self.new
            expression.now call.now operand.now) }
    {
        if !functions.known(&call.name) {
            self.push_fault(Kind::UnknownFunction, function_source(alloc, &call.name)?)?;
            return Ok(fallback(alloc, fallback_source(alloc, expression)?));
        }
        let settings = self.resolve_options(
            alloc,
            functions,
            limit,
            true,
            call.options.as_slice(),
        )?;
        if u32::try_from(settings.given.len()).is_err() {
            return Err(AllocError);
        }
        let called = functions.call(
            alloc,
            &call.name,
            self.operand_value(operand),
            &settings.given,
        )?;
        self.called_value(alloc, expression, settings, called)
    }

    /// The value of a call, or the fallback where it has none, with the errors of the call.
    fn called_value(
        &mut self,
        alloc: Global,
        expression: &Expression,
        settings: Settings,
        called: Called,
    ) -> Result<Value, AllocError>
        ensures { IfOk result (Ends expression.now self.old self.new settings called) }
    {
        let Called { value, faults } = called;
        match value {
            Some(value) => {
                add_refusals(alloc, &mut self.faults, &settings.given, &faults)?;
                Ok(settings.put_on(value))
            }
            None => {
                let source = fallback_source(alloc, expression)?;
                self.push_fault(Kind::BadOperand, source.clone()?)?;
                Ok(fallback(alloc, source))
            }
        }
    }
}

/// An error for each option that a call refuses, in the order of the source.
fn add_refusals(
    alloc: Global,
    faults: &mut Faults,
    given: &Options,
    refused: &CallFaults,
) -> Result<(), AllocError>
    ensures { OnOk result (faults.new ≡ faults.old ++ refused_errors refused.now given.now) }
{
    if refused.is_empty() {
        return Ok(());
    }
    let marks = refusal_marks(alloc, given.len(), refused.as_slice())?;
    for (place, option) in given.as_slice().iter().enumerate() {
        if marks[place] {
            faults.push(Fault {
                kind: Kind::BadOption,
                of: identifier_text(alloc, &option.name)?,
            })?;
        }
    }
    Ok(())
}

/// Which of so many options a call refuses.
fn refusal_marks(
    alloc: Global,
    count: usize,
    refused: &[CallFault],
) -> Result<Vec<bool>, AllocError>
    ensures count { IfOk result (λ marks. length marks.items ≡ count) }
    ensures marks { IfOk result (λ marks. AreMarks refused.now count marks.items) }
{
    let mut marks = vec![in alloc; false; count]?;
    for fault in refused {
        let place = fault.option as usize;
        if place < marks.len() {
            marks[place] = true;
        }
    }
    Ok(marks)
}
