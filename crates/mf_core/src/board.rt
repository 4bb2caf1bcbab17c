//! What callers share, event by event.
ghost use Rattle.std.specs.Prelude.{◌≡◌, ◌<◌, ◌≤◌, ℕ, length, None, Ok, Some, IfErr, IfOk, IfSome, MatchResult, OnErr};
ghost use Rattle.std.specs.Option.{option_copied};
ghost use Rattle.mf_edition.specs.Edition.{changed, newest_edition};
ghost use Rattle.mf_edition.specs.Sizes.{refusal_of, IsDue as IsDueOf};
ghost use Rattle.mf_flight.specs.Sums.{IsSum};
ghost use Rattle.mf_flight.specs.Slots.{starts_of};
ghost use Rattle.mf_core.specs.Kept.{board_world, held_at, plan_at, repinned, Does, GainsPlan, IsKept, KeepsPlans};
ghost use Rattle.mf_core.specs.Boards.{told_asked, TicketIs};
ghost use Rattle.mf_core.specs.Steps.{is_not_yours, is_past, maker, IsYours, Step};
ghost use Rattle.mf_core.specs.Worlds.{new_world, pins, swept};
ghost use Rattle.mf_core.specs.declared.event.Event.TheVariants.{Ask, Done, Join, Leave, Pin, Publish, Quit, Unpin};
ghost use Rattle.mf_core.specs.declared.event.Told.TheVariants.{Ended, Pinned, Published};

use crate::callers::{push_state, put_away, put_claim, put_made, put_pin, state_at};
use crate::held::{Held, drop_dead, move_pin};
use crate::{CallerState, CoreError, Event, Told};
use mf_edition::{
    Change, Entry, Log, PublishError, editions_follow, editions_stay, newest_is_last,
};
use mf_flight::{Asked, Flights, Spent, Ticket};
use std::alloc::{AllocError, Global};

/// The most callers that may join: the first one, and a million after it.
pub(crate) const MOST_CALLERS: u64 = 1_000_001;

/// What callers share: the log, the callers' states and what is held of the editions, both by their
/// numbers, and the compilations of the live editions' messages, each of which makes a `P`.
///
/// No ticket lies in it: who has claimed a message keeps the ticket. So a board can be dropped.
#[derive(Debug, Drop)]
pub struct Board<P> {
    log: Log,
    callers: Vec<CallerState>,
    editions: Vec<Held>,
    flights: Flights<P>,
}

impl<P: Drop> Board<P> {
    /// That of the new World.
    pub fn new(alloc: Global) -> Result<Board<P>, AllocError>
        ensures new { IfOk result (λ board. board_world board ≡ new_world) }
        ensures kept { IfOk result (λ board. IsKept board) }
    {
        let mut editions = Vec::new(alloc);
        editions.push(Held {
            messages: 0,
            pins: 0,
        })?;
        Ok(Board {
            log: Log::new(alloc),
            callers: Vec::new(alloc),
            editions,
            flights: Flights::new(alloc),
        })
    }

    /// The log.
    pub fn log(&self) -> &Log
        ensures { result.now ≡ (board_world self.now).log }
    {
        &self.log
    }

    /// The log, all else being given up.
    pub fn into_log(self) -> Log
        ensures { result ≡ (board_world self).log }
    {
        let Board {
            log,
            callers: _,
            editions: _,
            flights: _,
        } = self;
        log
    }

    /// The number of the caller that joins next.
    pub fn next_caller(&self) -> u64
        ensures { result ≡ (board_world self.now).next }
    {
        self.callers.len() as u64
    }

    /// The state of a caller.
    pub fn caller(&self, caller: u64) -> CallerState
        ensures { result ≡ (board_world self.now).caller caller }
    {
        state_at(&self.callers, caller)
    }

    /// What an entry is ready with, if it is ready.
    pub fn plan(&self, edition: u64, index: u32) -> Option<&P>
        ensures { option_copied result ≡ plan_at self.now edition index }
    {
        self.flights.get(edition, index)
    }

    /// The sums of the starts and of the quits of an edition's entries.
    pub fn totals(&self, edition: u64) -> (u64, u64)
        ensures starts { IsSum (λ i. starts_of ((board_world self.now).slot edition i)) result.0 }
        ensures quits { IsSum (λ i. ((board_world self.now).slot edition i).quits) result.1 }
    {
        self.flights.totals(edition)
    }

    /// Whether an event isn't its maker's, whose state this is.
    pub fn is_not_yours(&self, event: &Event, state: &CallerState) -> bool
        requires kept { IsKept self.now }
        requires state { state.now ≡ (board_world self.now).caller (maker event.now) }
        ensures { result ≡ is_not_yours (board_world self.now) event.now state.now }
    {
        match event {
            Event::Join { caller } => *caller != self.callers.len() as u64,
            Event::Publish { .. } => !state.joined,
            Event::Pin { .. } => !state.joined || state.claim.is_some(),
            Event::Ask { index, .. } => {
                !state.joined
                    || state.pinned.is_none()
                    || state.claim.is_some()
                    || self.is_past(state.pinned, *index)
            }
            Event::Done { .. } | Event::Quit { .. } => !state.joined || state.claim.is_none(),
            Event::Unpin { .. } => {
                !state.joined || state.pinned.is_none() || state.claim.is_some()
            }
            Event::Leave { .. } => {
                !state.joined || state.pinned.is_some() || state.claim.is_some()
            }
        }
    }

    /// Whether an index isn't one of a message of the pinned edition.
    fn is_past(&self, pinned: Option<u64>, index: u32) -> bool
        requires kept { IsKept self.now }
        requires pinned { IfSome pinned (λ e. e ≤ length self.now.log) }
        ensures { result ≡ is_past (board_world self.now) pinned index }
    {
        match pinned {
            None => true,
            Some(edition) => index >= self.editions[edition as usize].messages,
        }
    }

    /// The next caller joins.
    pub fn join(&mut self, caller: u64) -> Result<Told, CoreError>
        requires kept { IsKept self.old }
        requires yours { IsYours (board_world self.old) (Join caller) }
        ensures does { Does (board_world self.old) (Join caller) result (board_world self.new) }
        ensures kept { IsKept self.new }
        ensures plans { KeepsPlans self.old self.new }
    {
        editions_stay();
        if self.callers.len() as u64 >= MOST_CALLERS {
            return Err(CoreError::CallersFull);
        }
        push_state(&mut self.callers, self.log.len())?;
        Ok(Told::Joined)
    }

    /// A caller leaves.
    pub fn leave(&mut self, caller: u64)
        requires kept { IsKept self.old }
        requires yours { IsYours (board_world self.old) (Leave caller) }
        ensures step { Step (board_world self.old) (Leave caller) Ended (board_world self.new) }
        ensures kept { IsKept self.new }
        ensures plans { KeepsPlans self.old self.new }
    {
        editions_stay();
        put_away(&mut self.callers, caller);
    }

    /// A caller asks for a message of the edition that it has pinned. Where it claims it, it gets
    /// its ticket.
    pub fn ask(&mut self, caller: u64, index: u32) -> Result<Asked, AllocError>
        requires kept { IsKept self.old }
        requires yours { IsYours (board_world self.old) (Ask caller index) }
        ensures step { IfOk result (λ asked. Step (board_world self.old) (Ask caller index) (told_asked asked) (board_world self.new)) }
        ensures ticket { IfOk result (λ asked. TicketIs ((board_world self.new).caller caller).claim asked) }
        ensures err { OnErr result (board_world self.new ≡ board_world self.old) }
        ensures kept { IsKept self.new }
        ensures plans { KeepsPlans self.old self.new }
    {
        editions_stay();
        let Some(edition) = state_at(&self.callers, caller).pinned else {
            unreachable!();
        };
        match self.flights.ask(edition, index)? {
            Asked::Ready => Ok(Asked::Ready),
            Asked::Busy => Ok(Asked::Busy),
            Asked::Claimed(ticket) => {
                put_claim(&mut self.callers, caller, Some((edition, index)));
                Ok(Asked::Claimed(ticket))
            }
        }
    }

    /// The entry that a caller has claimed is ready.
    pub fn done(&mut self, caller: u64, spent: Spent, plan: P)
        requires kept { IsKept self.old }
        requires yours { IsYours (board_world self.old) (Done caller) }
        requires claim { ((board_world self.old).caller caller).claim ≡ Some spent }
        ensures step { Step (board_world self.old) (Done caller) Ended (board_world self.new) }
        ensures kept { IsKept self.new }
        ensures plans { GainsPlan self.old self.new spent plan }
        ensures ready { plan_at self.new spent.0 spent.1 ≡ Some plan }
    {
        editions_stay();
        put_claim(&mut self.callers, caller, None);
        self.flights.done(spent, plan);
    }

    /// A caller gives its claim back.
    pub fn quit(&mut self, caller: u64, ticket: Ticket)
        requires kept { IsKept self.old }
        requires yours { IsYours (board_world self.old) (Quit caller) }
        requires claim { ((board_world self.old).caller caller).claim ≡ Some ticket }
        ensures step { Step (board_world self.old) (Quit caller) Ended (board_world self.new) }
        ensures kept { IsKept self.new }
        ensures plans { KeepsPlans self.old self.new }
    {
        editions_stay();
        put_claim(&mut self.callers, caller, None);
        self.flights.quit(ticket);
    }

    /// A caller pins the newest edition, in place of an earlier pin. Its number is returned.
    pub fn pin(&mut self, caller: u64) -> u64
        requires kept { IsKept self.old }
        requires yours { IsYours (board_world self.old) (Pin caller) }
        ensures step { Step (board_world self.old) (Pin caller) (Pinned result) (board_world self.new) }
        ensures kept { IsKept self.new }
        ensures plans { KeepsPlans self.old self.new }
    {
        editions_stay();
        let newest = self.log.len();
        self.repin(caller, Some(newest), newest);
        newest
    }

    /// A caller ends its pin.
    pub fn unpin(&mut self, caller: u64)
        requires kept { IsKept self.old }
        requires yours { IsYours (board_world self.old) (Unpin caller) }
        ensures step { Step (board_world self.old) (Unpin caller) Ended (board_world self.new) }
        ensures kept { IsKept self.new }
        ensures plans { KeepsPlans self.old self.new }
    {
        editions_stay();
        let seen = state_at(&self.callers, caller).seen;
        self.repin(caller, None, seen);
    }

    /// A caller without a claim pins the newest edition, or none, and has seen so much.
    fn repin(&mut self, caller: u64, to: Option<u64>, seen: u64)
        requires kept { IsKept self.old }
        requires joined { caller < length self.old.callers.items }
        requires free { ((board_world self.old).caller caller).claim ≡ None }
        requires to { IfSome to (λ e. e ≡ length self.old.log) }
        ensures world { board_world self.new ≡ swept (repinned (board_world self.old) caller to seen) }
        ensures many { length self.new.editions.items ≡ length self.old.editions.items }
        ensures messages { (e : ℕ) → (held_at self.new.editions.items e).messages ≡ (held_at self.old.editions.items e).messages }
        ensures counted { (e : ℕ) → (held_at self.new.editions.items e).pins ≡ pins (repinned (board_world self.old) caller to seen) e }
        ensures plans { KeepsPlans self.old self.new }
    {
        let newest = self.log.len();
        let earlier = state_at(&self.callers, caller).pinned;
        put_pin(&mut self.callers, caller, to, seen);
        move_pin(&mut self.editions, earlier, to);
        let edition = earlier.unwrap_or(newest);
        drop_dead(&mut self.flights, &self.editions, newest, edition);
    }

    /// A caller makes an entry, after which the newest edition has so many messages. The edition's
    /// number is returned. After an error everything is as it was.
    pub fn publish(
        &mut self,
        caller: u64,
        change: Change,
        messages: u32,
    ) -> Result<u64, PublishError>
        requires kept { IsKept self.old }
        requires yours { IsYours (board_world self.old) (Publish caller change) }
        requires messages { messages ≡ length (changed (newest_edition (board_world self.old).log).items change) }
        ensures step { IfOk result (λ edition. Step (board_world self.old) (Publish caller change) (Published edition) (board_world self.new)) }
        ensures refused { IfErr result (IsDueOf (refusal_of (board_world self.old).log change)) }
        ensures err { OnErr result (board_world self.new ≡ board_world self.old) }
        ensures kept { IsKept self.new }
        ensures plans { KeepsPlans self.old self.new }
    {
        editions_stay();
        newest_is_last();
        editions_follow();
        if let Some(refusal) = self.log.refusal(&change) {
            return Err(refusal.into());
        }
        self.editions.reserve(1)?;
        let before = self.log.len();
        let nth = state_at(&self.callers, caller).made + 1;
        self.log.push(Entry {
            caller,
            nth,
            change,
        })?;
        self.editions.push_reserved(Held { messages, pins: 0 });
        let edition = before + 1;
        put_made(&mut self.callers, caller, nth, edition);
        drop_dead(&mut self.flights, &self.editions, edition, before);
        Ok(edition)
    }
}
