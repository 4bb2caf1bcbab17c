//! Sources compiled.
ghost use Rattle.std.specs.Prelude.{◌≡◌, IfOk, chars, codes};
ghost use Rattle.mf_tree.specs.Faults.{faults as faults_of};
ghost use Rattle.mf_plan.specs.Computed.{checked, invalid, plan_of, with_faults};
ghost use Rattle.mf_plan.specs.Plans.{CompilesTo, IsNode};

use crate::plan::Plan;
use mf_check::faults;
use mf_parse::{ParseError, parse};
use mf_text::Text;
use mf_tree::{Fault, Faults, Kind, Message};
use std::alloc::{AllocError, Global};

/// The most declarations that a message may have.
const MOST_DECLARATIONS: usize = 256;

impl Plan {
    /// What a source compiles to: `syntax-error` where it spells no message, `limit` where its
    /// message has more than 256 declarations, else the message's errors, or the message where it
    /// has none.
    #[tactic(auto, using(crate::proofs::Computed::plan_compiled, crate::proofs::Computed::plan_node))]
    pub fn of(alloc: Global, source: &str) -> Result<Plan, AllocError>
        ensures compiled { IfOk result (λ plan. CompilesTo (chars source.now) plan) }
        ensures node { IfOk result (λ plan. IsNode plan) }
    {
        let plan = compile(alloc, source)?;
        Ok(plan)
    }
}

/// What a source compiles to.
fn compile(alloc: Global, source: &str) -> Result<Plan, AllocError>
    ensures { IfOk result (λ plan. plan ≡ plan_of (chars source.now)) }
{
    match parse(alloc, source) {
        Ok(message) => check(alloc, message),
        Err(ParseError::Syntax) => invalid(alloc, Kind::Syntax, Text::new(alloc)),
        Err(ParseError::OutOfMemory) => Err(AllocError),
    }
}

/// What a message compiles to.
fn check(alloc: Global, message: Message) -> Result<Plan, AllocError>
    ensures { IfOk result (λ plan. plan ≡ checked message) }
{
    if message.declarations.len() <= MOST_DECLARATIONS {
        check_few(alloc, message)
    } else {
        invalid(alloc, Kind::Limit, declarations(alloc)?)
    }
}

/// The word `declarations`.
fn declarations(alloc: Global) -> Result<Text, AllocError>
    ensures { IfOk result (λ text. text ≡ codes "declarations") }
{
    let text = Text::of(alloc, "declarations")?;
    Ok(text)
}

/// What a message that has not too many declarations compiles to.
fn check_few(alloc: Global, message: Message) -> Result<Plan, AllocError>
    ensures { IfOk result (λ plan. plan ≡ with_faults message (faults_of message)) }
{
    let faults = faults(alloc, &message)?;
    if faults.is_empty() {
        Ok(Plan::Valid(message))
    } else {
        Ok(Plan::Invalid(faults))
    }
}

/// What has one error alone.
fn invalid(alloc: Global, kind: Kind, of: Text) -> Result<Plan, AllocError>
    ensures { IfOk result (λ plan. plan ≡ invalid kind of) }
{
    let mut faults = Faults::new(alloc);
    faults.push(Fault { kind, of })?;
    Ok(Plan::Invalid(faults))
}
