ghost use Rattle.std.specs.Prelude.{◌≡◌, IfErr, IfOk, OnErr};
ghost use Rattle.mf_edition.specs.Edition.{newest_edition, next_edition};
ghost use Rattle.mf_edition.specs.Sizes.{refusal_of, IsDue as IsDueOf};
ghost use Rattle.mf_core.specs.Kept.{Does};
ghost use Rattle.mf_core.specs.Running.{world_of, IsWhole};
ghost use Rattle.mf_core.specs.Steps.{refusal, IsDue, IsYours, Step};
ghost use Rattle.mf_core.specs.Worlds.{new_world};
ghost use Rattle.mf_core.specs.declared.event.Event.TheVariants.{Ask, Done, Join, Leave, Pin, Publish, Quit, Unpin};

use crate::board::{Board, MOST_CALLERS};
use crate::tickets::{put_ticket, spend_all, take_ticket};
use crate::{CoreError, Event, Told, World};
use mf_edition::{Change, Edition, PublishError, editions_follow};
use mf_flight::Asked;
use std::alloc::{AllocError, Global};

impl World {
    /// The new World, in which nobody has joined.
    pub fn new(alloc: Global) -> Result<World, AllocError>
        ensures new { IfOk result (λ world. world_of world ≡ new_world) }
        ensures whole { IfOk result IsWhole }
    {
        let board = Board::new(alloc)?;
        let newest = Edition::empty(alloc)?;
        Ok(World {
            board,
            newest,
            tickets: Vec::new(alloc),
        })
    }

    /// Spends the tickets that are left, and gives the World up. It takes no memory.
    pub fn end(self) {
        let World {
            board: _,
            newest: _,
            tickets,
        } = self;
        spend_all(tickets);
    }

    /// The next caller joins.
    fn join(&mut self, caller: u64) -> Result<Told, CoreError>
        requires whole { IsWhole self.old }
        requires yours { IsYours (world_of self.old) (Join caller) }
        ensures does { Does (world_of self.old) (Join caller) result (world_of self.new) }
        ensures whole { IsWhole self.new }
    {
        if self.board.next_caller() >= MOST_CALLERS {
            return Err(CoreError::CallersFull);
        }
        self.tickets.reserve(1)?;
        self.board.join(caller)?;
        self.tickets.push_reserved(None);
        Ok(Told::Joined)
    }

    /// A caller makes an entry.
    fn publish(&mut self, caller: u64, change: Change) -> Result<Told, CoreError>
        requires whole { IsWhole self.old }
        requires yours { IsYours (world_of self.old) (Publish caller change) }
        ensures does { Does (world_of self.old) (Publish caller change) result (world_of self.new) }
        ensures whole { IsWhole self.new }
    {
        editions_follow();
        let edition = self.next_edition(&change)?;
        let number = self.board.publish(caller, change, edition.len())?;
        self.newest = edition;
        Ok(Told::Published { edition: number })
    }

    /// The edition that a change makes of the newest one, or why there is none.
    fn next_edition(&self, change: &Change) -> Result<Edition, PublishError>
        requires { IsWhole self.now }
        ensures edition { IfOk result (λ edition. edition ≡ next_edition (newest_edition (world_of self.now).log) change.now) }
        ensures refused { IfErr result (IsDueOf (refusal_of (world_of self.now).log change.now)) }
    {
        if let Some(refusal) = self.board.log().refusal(change) {
            return Err(refusal.into());
        }
        Ok(self.newest.next(change)?)
    }

    /// A caller pins the newest edition.
    fn pin(&mut self, caller: u64) -> Told
        requires whole { IsWhole self.old }
        requires yours { IsYours (world_of self.old) (Pin caller) }
        ensures step { Step (world_of self.old) (Pin caller) result (world_of self.new) }
        ensures whole { IsWhole self.new }
    {
        let edition = self.board.pin(caller);
        Told::Pinned { edition }
    }

    /// A caller ends its pin.
    fn unpin(&mut self, caller: u64) -> Told
        requires whole { IsWhole self.old }
        requires yours { IsYours (world_of self.old) (Unpin caller) }
        ensures step { Step (world_of self.old) (Unpin caller) result (world_of self.new) }
        ensures whole { IsWhole self.new }
    {
        self.board.unpin(caller);
        Told::Ended
    }

    /// A caller leaves.
    fn leave(&mut self, caller: u64) -> Told
        requires whole { IsWhole self.old }
        requires yours { IsYours (world_of self.old) (Leave caller) }
        ensures step { Step (world_of self.old) (Leave caller) result (world_of self.new) }
        ensures whole { IsWhole self.new }
    {
        self.board.leave(caller);
        Told::Ended
    }

    /// A caller asks for a message of the edition that it has pinned.
    fn ask(&mut self, caller: u64, index: u32) -> Result<Told, CoreError>
        requires whole { IsWhole self.old }
        requires yours { IsYours (world_of self.old) (Ask caller index) }
        ensures does { Does (world_of self.old) (Ask caller index) result (world_of self.new) }
        ensures whole { IsWhole self.new }
    {
        match self.board.ask(caller, index)? {
            Asked::Ready => Ok(Told::Ready),
            Asked::Busy => Ok(Told::Busy),
            Asked::Claimed(ticket) => {
                put_ticket(&mut self.tickets, caller, ticket);
                Ok(Told::Claimed)
            }
        }
    }

    /// The entry that a caller has claimed is ready.
    fn done(&mut self, caller: u64) -> Told
        requires whole { IsWhole self.old }
        requires yours { IsYours (world_of self.old) (Done caller) }
        ensures step { Step (world_of self.old) (Done caller) result (world_of self.new) }
        ensures whole { IsWhole self.new }
    {
        match take_ticket(&mut self.tickets, caller) {
            None => unreachable!(),
            Some(ticket) => self.board.done(caller, ticket.spend(), ()),
        }
        Told::Ended
    }

    /// A caller gives its claim back.
    fn quit(&mut self, caller: u64) -> Told
        requires whole { IsWhole self.old }
        requires yours { IsYours (world_of self.old) (Quit caller) }
        ensures step { Step (world_of self.old) (Quit caller) result (world_of self.new) }
        ensures whole { IsWhole self.new }
    {
        match take_ticket(&mut self.tickets, caller) {
            None => unreachable!(),
            Some(ticket) => self.board.quit(caller, ticket),
        }
        Told::Ended
    }
}

/// Does an event, or refuses it. A refusal leaves the World as it was.
pub fn step(world: &mut World, event: Event) -> Result<Told, CoreError>
    requires { IsWhole world.old }
    ensures ok { IfOk result (λ told. Step (world_of world.old) event told (world_of world.new)) }
    ensures refused { IfErr result (IsDue (refusal (world_of world.old) event)) }
    ensures err { OnErr result (world_of world.new ≡ world_of world.old) }
    ensures whole { IsWhole world.new }
{
    let state = world.board.caller(event.maker());
    if world.board.is_not_yours(&event, &state) {
        return Err(CoreError::NotYours { state });
    }
    match event {
        Event::Join { caller } => world.join(caller),
        Event::Publish { caller, change } => world.publish(caller, change),
        Event::Pin { caller } => Ok(world.pin(caller)),
        Event::Ask { caller, index } => world.ask(caller, index),
        Event::Done { caller } => Ok(world.done(caller)),
        Event::Quit { caller } => Ok(world.quit(caller)),
        Event::Unpin { caller } => Ok(world.unpin(caller)),
        Event::Leave { caller } => Ok(world.leave(caller)),
    }
}
