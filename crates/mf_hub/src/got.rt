//! What asking for a message gets.
use mf_flight::Ticket;
use mf_plan::Plan;
use std::sync::Arc;

/// What asking for a message gets where nobody compiles it.
pub(crate) enum Got {
    /// Its plan, which is ready.
    Ready(Arc<Plan>),
    /// The claim on it, and with it the ticket for its compilation.
    Claimed(Ticket),
}
