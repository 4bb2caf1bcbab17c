//! The compilation of one edition's messages.
ghost use Rattle.std.specs.Prelude.{◌≡◌, ◌<◌, IfOk, OnErr, OnOk, chars, length};
ghost use Rattle.std.specs.Arc.{arc_value};
ghost use Rattle.mf_flight.specs.Flights.{slot_of};
ghost use Rattle.mf_flight.specs.declared.slot.State.TheVariants.{Claimed};
ghost use Rattle.mf_hub.specs.Desks.{IsPlanAt};
ghost use Rattle.mf_hub.specs.Kept.{AreOf, Finds, Keeps, KeepsOrQuits, Misses};
ghost use Rattle.mf_plan.specs.Plans.{CompilesTo, IsNode};

use mf_edition::Edition;
use mf_flight::{Asked, Flights, Ticket};
use mf_plan::{Plan, compile};
use std::alloc::{AllocError, Global};
use std::sync::Arc;

/// The plan of the message at an index of an edition.
pub(crate) fn plan_among(
    alloc: Global,
    edition: &Edition,
    flights: &mut Flights<Arc<Plan>>,
    index: u32,
) -> Result<Arc<Plan>, AllocError>
    requires kept { AreOf arc_value edition.now flights.old }
    requires inside { index < length edition.now.items }
    ensures plan { IfOk result (λ plan. IsPlanAt edition.now index (arc_value plan)) }
    ensures kept { AreOf arc_value edition.now flights.new }
    ensures ok { OnOk result (Finds edition.now flights.old index flights.new) }
    ensures err { OnErr result (Misses edition.now flights.old index flights.new) }
{
    let number = edition.number();
    if let Some(plan) = flights.get(number, index) {
        return plan.clone();
    }
    let Some(item) = edition.item(index) else {
        unreachable!();
    };
    match flights.ask(number, index)? {
        Asked::Claimed(ticket) => compile_claimed(alloc, flights, ticket, item.source()),
        Asked::Busy | Asked::Ready => unreachable!(),
    }
}

/// Compiles the source of a message that is claimed.
fn compile_claimed(
    alloc: Global,
    flights: &mut Flights<Arc<Plan>>,
    ticket: Ticket,
    source: &str,
) -> Result<Arc<Plan>, AllocError>
    requires { (slot_of flights.old ticket.0 ticket.1).state ≡ Claimed }
    ensures compiled { IfOk result (λ plan. CompilesTo (chars source.now) (arc_value plan)) }
    ensures node { IfOk result (λ plan. IsNode (arc_value plan)) }
    ensures ok { OnOk result (Keeps (chars source.now) flights.old ticket.0 ticket.1 flights.new) }
    ensures err { OnErr result (KeepsOrQuits (chars source.now) flights.old ticket.0 ticket.1 flights.new) }
{
    match compile(alloc, ticket, source) {
        Ok((plan, spent)) => {
            let shared: Result<_, _> = plan.clone();
            flights.done(spent, plan);
            shared
        }
        Err((refusal, ticket)) => {
            flights.quit(ticket);
            Err(refusal)
        }
    }
}
