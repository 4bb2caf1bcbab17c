//! The tickets of callers, by their numbers.
ghost use Rattle.std.specs.Prelude.{◌≡◌, ◌<◌, ◌++◌, None, Some, [], ◌∷◌, length};
ghost use Rattle.mf_core.specs.Running.{ticket_at, PutsTicket};

use mf_flight::Ticket;
use std::mem;

/// A caller without a ticket gets one.
pub(crate) fn put_ticket(tickets: &mut Vec<Option<Ticket>>, caller: u64, ticket: Ticket)
    requires there { caller < length tickets.old.items }
    requires free { ticket_at tickets.old.items caller ≡ None }
    ensures { PutsTicket tickets.old.items tickets.new.items caller (Some ticket) }
{
    match mem::replace(&mut tickets[caller as usize], Some(ticket)) {
        None => {}
        Some(_) => unreachable!(),
    }
}

/// The ticket of a caller, which then has none.
pub(crate) fn take_ticket(tickets: &mut Vec<Option<Ticket>>, caller: u64) -> Option<Ticket>
    requires { caller < length tickets.old.items }
    ensures ticket { result ≡ ticket_at tickets.old.items caller }
    ensures puts { PutsTicket tickets.old.items tickets.new.items caller None }
{
    mem::replace(&mut tickets[caller as usize], None)
}

/// Spends the tickets that are left.
pub(crate) fn spend_all(tickets: Vec<Option<Ticket>>) {
    let mut tickets = tickets;
    while let Some(ticket) = tickets.pop() {
        match ticket {
            None => {}
            Some(ticket) => {
                let _ = ticket.spend();
            }
        }
    }
    tickets.destroy_empty();
}
