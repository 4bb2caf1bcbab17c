//! The plans of the messages of pinned editions, each compiled by one caller.
ghost use Rattle.std.specs.Prelude.{◌≡◌, ◌+◌, None, Some, chars, Contains, IfNone, IfOk, IfSome, OnErr};
ghost use Rattle.std.specs.Arc.{arc_value};
ghost use Rattle.mf_edition.specs.Edition.{edition_of};
ghost use Rattle.mf_hub.specs.Desks.{IsPlanAt};
ghost use Rattle.mf_hub.specs.Held.{HasGot, IsMessage, IsSeat, IsSource};
ghost use Rattle.mf_hub.specs.Passes.{Gets, GivesUp, Grows, HasMessage, Keeps, Tells};

use crate::got::Got;
use crate::hub::Hub;
use crate::pass::Pass;
use crate::stat::Stat;
use crate::store::Store;
use crossbeam_utils::Backoff;
use mf_edition::{Edition, editions_are_numbered, editions_stay, newest_is_last};
use mf_flight::{Spent, Ticket};
use mf_io::{Gate, NoGate, Place};
use mf_plan::{Plan, compile};
use mf_turn::{Act, Seat};
use std::alloc::AllocError;
use std::sync::{Arc, Wait};

impl Hub {
    /// The plan of the message at an index of the edition that the pass has pinned: it is compiled
    /// unless it is ready. Where another caller compiles it, this one waits. Where there is no
    /// memory for it, the ticket is given back.
    pub fn plan<R: Wait>(
        &self,
        rt: &R,
        pass: &mut Pass,
        index: u32,
    ) -> Result<Arc<Plan>, AllocError>
        requires own { pass.old.hub ≡ self.now }
        requires message { HasMessage index pass.old.view }
        ensures own { pass.new.hub ≡ pass.old.hub }
        ensures grows { Grows pass.old.view pass.new.view }
        ensures ended { pass.new.view.ended ≡ pass.old.view.ended }
        ensures pin { pass.new.view.pin ≡ pass.old.view.pin }
        ensures gets { IfOk result (λ plan. Gets index (arc_value plan) pass.old.view pass.new.view) }
        ensures gives_up { OnErr result (GivesUp pass.old.view pass.new.view) }
    {
        self.plan_at(rt, pass, index, &NoGate)
    }

    /// The same, with a gate that the caller passes before and after it compiles.
    pub fn plan_at<R: Wait, G: Gate>(
        &self,
        rt: &R,
        pass: &mut Pass,
        index: u32,
        gate: &G,
    ) -> Result<Arc<Plan>, AllocError>
        requires own { pass.old.hub ≡ self.now }
        requires message { HasMessage index pass.old.view }
        ensures own { pass.new.hub ≡ pass.old.hub }
        ensures grows { Grows pass.old.view pass.new.view }
        ensures ended { pass.new.view.ended ≡ pass.old.view.ended }
        ensures pin { pass.new.view.pin ≡ pass.old.view.pin }
        ensures gets { IfOk result (λ plan. Gets index (arc_value plan) pass.old.view pass.new.view) }
        ensures gives_up { OnErr result (GivesUp pass.old.view pass.new.view) }
    {
        editions_stay();
        editions_are_numbered();
        newest_is_last();
        let Some(edition) = &pass.pinned else {
            unreachable!();
        };
        let plan = self.plan_in(rt, &mut pass.seat, pass.number, edition, index, gate);
        pass.seen = self.turn.count(&mut pass.seat);
        plan
    }

    /// The plan of the message at an index of an edition that is pinned.
    fn plan_in<R: Wait, G: Gate>(
        &self,
        rt: &R,
        seat: &mut Seat<Store>,
        number: u64,
        edition: &Edition,
        index: u32,
        gate: &G,
    ) -> Result<Arc<Plan>, AllocError>
        requires own { seat.old.turn ≡ self.now }
        requires seat { IsSeat seat.old number None }
        requires message { IsMessage edition.now.number index seat.old.view }
        requires edition { edition.now ≡ edition_of seat.old.view.log edition.now.number }
        ensures own { seat.new.turn ≡ seat.old.turn }
        ensures seat { IsSeat seat.new number None }
        ensures grows { Grows seat.old.view seat.new.view }
        ensures ended { seat.new.view.ended ≡ seat.old.view.ended }
        ensures pin { seat.new.view.pin ≡ seat.old.view.pin }
        ensures gets { IfOk result (λ plan. Gets index (arc_value plan) seat.old.view seat.new.view) }
        ensures gives_up { OnErr result (GivesUp seat.old.view seat.new.view) }
    {
        let Some(item) = edition.item(index) else {
            unreachable!();
        };
        match self.ask(rt, seat, number, edition.number(), index)? {
            Got::Ready(plan) => Ok(plan),
            Got::Claimed(ticket) => { self.compile(rt, seat, number, ticket, item.source(), gate) }
        }
    }

    /// Asks for a message until nobody else compiles it.
    fn ask<R: Wait>(
        &self,
        rt: &R,
        seat: &mut Seat<Store>,
        number: u64,
        edition: u64,
        index: u32,
    ) -> Result<Got, AllocError>
        requires own { seat.old.turn ≡ self.now }
        requires seat { IsSeat seat.old number None }
        requires message { IsMessage edition index seat.old.view }
        ensures own { seat.new.turn ≡ seat.old.turn }
        ensures grows { Grows seat.old.view seat.new.view }
        ensures keeps { Keeps seat.old.view seat.new.view }
        ensures pin { seat.new.view.pin ≡ seat.old.view.pin }
        ensures got { IfOk result (HasGot number edition index seat.new) }
        ensures seat { OnErr result (IsSeat seat.new number None) }
    {
        editions_stay();
        let backoff = Backoff::new();
        for _ in rt.forever() {
            match self.ask_once(rt, seat, number, edition, index)? {
                Some(got) => return Ok(got),
                None => backoff.snooze(),
            }
        }
        unreachable!()
    }

    /// Asks for a message in one turn: none where another caller compiles it.
    fn ask_once<R: Wait>(
        &self,
        rt: &R,
        seat: &mut Seat<Store>,
        number: u64,
        edition: u64,
        index: u32,
    ) -> Result<Option<Got>, AllocError>
        requires own { seat.old.turn ≡ self.now }
        requires seat { IsSeat seat.old number None }
        requires message { IsMessage edition index seat.old.view }
        ensures own { seat.new.turn ≡ seat.old.turn }
        ensures grows { Grows seat.old.view seat.new.view }
        ensures keeps { Keeps seat.old.view seat.new.view }
        ensures pin { seat.new.view.pin ≡ seat.old.view.pin }
        ensures got { IfOk result (λ got. IfSome got (HasGot number edition index seat.new)) }
        ensures busy { IfOk result (λ got. IfNone got (IsSeat seat.new number None)) }
        ensures seat { OnErr result (IsSeat seat.new number None) }
    {
        editions_stay();
        let mut store = self.turn.take(rt, seat);
        match store.ask(number, edition, index) {
            Ok(Some(Got::Ready(plan))) => {
                self.end(seat, store, Act::Serve(edition, index));
                Ok(Some(Got::Ready(plan)))
            }
            Ok(Some(Got::Claimed(ticket))) => {
                self.end(seat, store, Act::Claim(edition, index));
                Ok(Some(Got::Claimed(ticket)))
            }
            Ok(None) => {
                self.end(seat, store, Act::Same);
                Ok(None)
            }
            Err(unshared) => {
                self.end(seat, store, Act::Same);
                Err(unshared)
            }
        }
    }

    /// Compiles the message that a caller has claimed, while others take turns. Where the plan
    /// can't be shared once more for the caller, the message is ready all the same.
    fn compile<R: Wait, G: Gate>(
        &self,
        rt: &R,
        seat: &mut Seat<Store>,
        number: u64,
        ticket: Ticket,
        source: &str,
        gate: &G,
    ) -> Result<Arc<Plan>, AllocError>
        requires own { seat.old.turn ≡ self.now }
        requires seat { IsSeat seat.old number (Some ticket) }
        requires message { IsMessage ticket.0 ticket.1 seat.old.view }
        requires source { IsSource seat.old.view.log ticket.0 ticket.1 (chars source.now) }
        ensures own { seat.new.turn ≡ seat.old.turn }
        ensures seat { IsSeat seat.new number None }
        ensures grows { Grows seat.old.view seat.new.view }
        ensures ended { seat.new.view.ended ≡ seat.old.view.ended }
        ensures pin { seat.new.view.pin ≡ seat.old.view.pin }
        ensures gets { IfOk result (λ plan. Gets ticket.1 (arc_value plan) seat.old.view seat.new.view) }
        ensures gives_up { OnErr result (GivesUp seat.old.view seat.new.view) }
    {
        editions_stay();
        gate.at(rt, Place::BeforeCompile);
        let compiled = compile(self.alloc, ticket, source);
        gate.at(rt, Place::AfterCompile);
        match compiled {
            Ok((plan, spent)) => {
                let shared: Result<_, _> = plan.clone();
                self.finish(rt, seat, number, spent, plan);
                shared
            }
            Err((refusal, ticket)) => {
                self.give_back(rt, seat, number, ticket);
                Err(refusal)
            }
        }
    }

    /// The message that a caller has claimed is compiled to this plan.
    fn finish<R: Wait>(
        &self,
        rt: &R,
        seat: &mut Seat<Store>,
        number: u64,
        spent: Spent,
        plan: Arc<Plan>,
    )
        requires own { seat.old.turn ≡ self.now }
        requires seat { IsSeat seat.old number (Some spent) }
        requires message { IsMessage spent.0 spent.1 seat.old.view }
        requires plan { IsPlanAt (edition_of seat.old.view.log spent.0) spent.1 (arc_value plan) }
        ensures own { seat.new.turn ≡ seat.old.turn }
        ensures seat { IsSeat seat.new number None }
        ensures grows { Grows seat.old.view seat.new.view }
        ensures keeps { Keeps seat.old.view seat.new.view }
        ensures pin { seat.new.view.pin ≡ seat.old.view.pin }
        ensures served { Contains seat.new.view.served spent }
    {
        editions_stay();
        let mut store = self.turn.take(rt, seat);
        store.done(number, spent, plan);
        self.end(seat, store, Act::Done);
    }

    /// A caller gives back the ticket for the message that it has claimed.
    fn give_back<R: Wait>(&self, rt: &R, seat: &mut Seat<Store>, number: u64, ticket: Ticket)
        requires own { seat.old.turn ≡ self.now }
        requires seat { IsSeat seat.old number (Some ticket) }
        ensures own { seat.new.turn ≡ seat.old.turn }
        ensures seat { IsSeat seat.new number None }
        ensures grows { Grows seat.old.view seat.new.view }
        ensures ended { seat.new.view.ended ≡ seat.old.view.ended }
        ensures pin { seat.new.view.pin ≡ seat.old.view.pin }
        ensures given { seat.new.view.given ≡ seat.old.view.given + 1 }
    {
        let mut store = self.turn.take(rt, seat);
        store.quit(number, ticket);
        self.end(seat, store, Act::Quit);
    }

    /// How far the messages of the newest edition are compiled. It takes no memory.
    pub fn stat<R: Wait>(&self, rt: &R, pass: &mut Pass) -> Stat
        requires own { pass.old.hub ≡ self.now }
        ensures own { pass.new.hub ≡ pass.old.hub }
        ensures grows { Grows pass.old.view pass.new.view }
        ensures keeps { Keeps pass.old.view pass.new.view }
        ensures pin { pass.new.view.pin ≡ pass.old.view.pin }
        ensures tells { Tells result pass.new.view }
    {
        let store = self.turn.take(rt, &mut pass.seat);
        pass.seen = store.len();
        let stat = store.stat();
        self.end(&mut pass.seat, store, Act::Hear(stat.quits));
        stat
    }
}
