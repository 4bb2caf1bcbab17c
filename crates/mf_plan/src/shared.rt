//! Plans that several callers share.
ghost use Rattle.std.specs.Prelude.{◌≡◌, IfOk, IfErr, chars};
ghost use Rattle.std.specs.Arc.{arc_value};
ghost use Rattle.mf_plan.specs.Plans.{CompilesTo, IsNode};

use crate::plan::Plan;
use mf_flight::{Spent, Ticket};
use std::alloc::{AllocError, Global};
use std::sync::Arc;

/// Compiles the source of the message that a ticket is for, to a plan that is shared, and spends
/// the ticket. Where that finds no memory, the ticket comes back.
/// See DECISIONS 49.
pub fn compile(
    alloc: Global,
    ticket: Ticket,
    source: &str,
) -> Result<(Arc<Plan>, Spent), (AllocError, Ticket)>
    ensures compiled { IfOk result (λ made. CompilesTo (chars source.now) (arc_value made.0)) }
    ensures node { IfOk result (λ made. IsNode (arc_value made.0)) }
    ensures spent { IfOk result (λ made. made.1 ≡ ticket) }
    ensures back { IfErr result (λ refusal. refusal.1 ≡ ticket) }
{
    match shared(alloc, source) {
        Ok(plan) => Ok((plan, ticket.spend())),
        Err(refusal) => Err((refusal, ticket)),
    }
}

/// What a source compiles to, to be shared.
fn shared(alloc: Global, source: &str) -> Result<Arc<Plan>, AllocError>
    ensures compiled { IfOk result (λ plan. CompilesTo (chars source.now) (arc_value plan)) }
    ensures node { IfOk result (λ plan. IsNode (arc_value plan)) }
{
    Ok(Arc::new(alloc, Plan::of(alloc, source)?)?)
}
