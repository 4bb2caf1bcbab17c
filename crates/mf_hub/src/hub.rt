//! The shared log.
ghost use Rattle.std.specs.Prelude.{◌≡◌, ◌≤◌, length, None, Some, IfErr, IfOk, OnErr, OnOk};
ghost use Rattle.std.specs.Arc.{arc_value};
ghost use Rattle.std.specs.Option.{ForSome};
ghost use Rattle.mf_edition.specs.Edition.{edition_of, newest_edition, next_edition, HasRoom};
ghost use Rattle.mf_edition.specs.Sizes.{refusal_of, IsDue};
ghost use Rattle.mf_turn.specs.Acts.{after, MayEnd};
ghost use Rattle.mf_turn.specs.Sums.{HasSome, StartsWith};
ghost use Rattle.mf_hub.specs.Passes.{Closes, Grows, HasOthers, Inherits, IsFirst, IsFresh, IsFull, IsNoted, Keeps, Learns, Publishes};
ghost use Rattle.mf_hub.specs.Stores.{account_of, IsTurn};

use crate::error::CloseError;
use crate::pass::{Note, Pass};
use crate::store::{Store, made_from};
use mf_edition::{Change, Edition, Log, PublishError, editions_are_numbered, newest_is_last};
use mf_io::PassError;
use mf_turn::{Act, Seat, Turn};
use std::alloc::{AllocError, Global};
use std::marker::Model;
use std::sync::{Arc, Wait};

/// A log that callers publish to at once, with its newest edition, seen as its name, which its
/// passes have too.
#[derive(Drop)]
pub struct Hub {
    pub(crate) alloc: Global,
    pub(crate) turn: Turn<Store>,
}

impl Model for Hub {
    ghost use Rattle.atomic_table.specs.Seated.{TableId};

    ghost Value = { TableId };

    ghost view = { λ h. h.turn };
}

impl Hub {
    /// A hub at which nothing was published, and its first pass, whose number is 0.
    pub fn new(alloc: Global) -> Result<(Hub, Pass), AllocError>
        ensures own { IfOk result (λ made. made.1.hub ≡ made.0) }
        ensures first { IfOk result (λ made. IsFirst made.1.view) }
    {
        let store = Store::new(alloc)?;
        let (turn, seat) = Turn::new(alloc, store)?;
        let pass = Pass {
            seat,
            number: 0,
            seen: 0,
            pinned: None,
        };
        Ok((Hub { alloc, turn }, pass))
    }

    /// Gives the value back, to which `act` was done: one step of the core, or nothing.
    pub(crate) fn end(&self, seat: &mut Seat<Store>, store: Store, act: Act)
        requires own { seat.old.turn ≡ self.now }
        requires core { HasSome seat.old.taken (λ x. IsTurn x store) }
        requires may { HasSome seat.old.taken (λ x. MayEnd act (account_of x) (account_of store) seat.old.view) }
        ensures own { seat.new.turn ≡ seat.old.turn }
        ensures free { seat.new.taken ≡ None }
        ensures view { ForSome seat.old.taken (λ x. seat.new.view ≡ after act (account_of x) seat.old.view) }
    {
        self.turn.give(seat, store, act);
    }

    /// The number of the newest edition, which is no less than what the pass has seen. It waits for
    /// nobody and takes no memory.
    pub fn newest(&self, pass: &mut Pass) -> u64
        requires own { pass.old.hub ≡ self.now }
        ensures own { pass.new.hub ≡ pass.old.hub }
        ensures grows { Grows pass.old.view pass.new.view }
        ensures keeps { Keeps pass.old.view pass.new.view }
        ensures pin { pass.new.view.pin ≡ pass.old.view.pin }
        ensures newest { result ≡ length pass.new.view.log }
    {
        pass.seen = self.turn.count(&mut pass.seat);
        pass.seen
    }

    /// Publishes a change, as the next entry of the pass's caller, and gives the number of the
    /// edition that it makes.
    ///
    /// It takes two turns. Between them it makes the edition, and in the second one makes it again
    /// only where another caller has published meanwhile.
    pub fn publish<R: Wait>(
        &self,
        rt: &R,
        pass: &mut Pass,
        change: Change,
    ) -> Result<u64, PublishError>
        requires own { pass.old.hub ≡ self.now }
        ensures own { pass.new.hub ≡ pass.old.hub }
        ensures keeps { Keeps pass.old.view pass.new.view }
        ensures pin { pass.new.view.pin ≡ pass.old.view.pin }
        ensures published { IfOk result (λ edition. Publishes change edition pass.old.view pass.new.view) }
        ensures grows { OnErr result (Grows pass.old.view pass.new.view) }
        ensures refused { IfErr result (IsDue (refusal_of pass.new.view.log change)) }
    {
        let newest = self.newest_for(rt, pass, &change)?;
        let edition = made_from(self.alloc, &newest, &change)?;
        self.publish_made(rt, pass, change, edition)
    }

    /// The newest edition, where it takes this change.
    fn newest_for<R: Wait>(
        &self,
        rt: &R,
        pass: &mut Pass,
        change: &Change,
    ) -> Result<Arc<Edition>, PublishError>
        requires own { pass.old.hub ≡ self.now }
        ensures own { pass.new.hub ≡ pass.old.hub }
        ensures grows { Grows pass.old.view pass.new.view }
        ensures keeps { Keeps pass.old.view pass.new.view }
        ensures pin { pass.new.view.pin ≡ pass.old.view.pin }
        ensures newest { IfOk result (λ newest. arc_value newest ≡ newest_edition pass.new.view.log) }
        ensures room { OnOk result (HasRoom (newest_edition pass.new.view.log) change.now) }
        ensures accepted { OnOk result (refusal_of pass.new.view.log change.now ≡ None) }
        ensures refused { IfErr result (IsDue (refusal_of pass.new.view.log change.now)) }
    {
        let store = self.turn.take(rt, &mut pass.seat);
        pass.seen = store.len();
        let newest = store.newest_for(change);
        self.end(&mut pass.seat, store, Act::Same);
        newest
    }

    /// Publishes a change, where this is the edition that it made when the pass had seen as much as
    /// now.
    fn publish_made<R: Wait>(
        &self,
        rt: &R,
        pass: &mut Pass,
        change: Change,
        edition: Arc<Edition>,
    ) -> Result<u64, PublishError>
        requires own { pass.old.hub ≡ self.now }
        requires edition { arc_value edition ≡ next_edition (newest_edition pass.old.view.log) change }
        ensures own { pass.new.hub ≡ pass.old.hub }
        ensures keeps { Keeps pass.old.view pass.new.view }
        ensures pin { pass.new.view.pin ≡ pass.old.view.pin }
        ensures published { IfOk result (λ edition. Publishes change edition pass.old.view pass.new.view) }
        ensures grows { OnErr result (Grows pass.old.view pass.new.view) }
        ensures refused { IfErr result (IsDue (refusal_of pass.new.view.log change)) }
    {
        editions_are_numbered();
        newest_is_last();
        let mut store = self.turn.take(rt, &mut pass.seat);
        pass.seen = store.len();
        match store.publish(self.alloc, pass.number, change, edition) {
            Ok(_before) => {
                pass.seen = self.turn.raise(&mut pass.seat, &store);
                self.end(&mut pass.seat, store, Act::Publish);
                Ok(pass.seen)
            }
            Err(refused) => {
                self.end(&mut pass.seat, store, Act::Same);
                Err(refused)
            }
        }
    }

    /// Pins the newest edition, in place of an earlier pin, and gives it. Where it can't be shared,
    /// an earlier pin stays.
    pub fn pin<R: Wait>(&self, rt: &R, pass: &mut Pass) -> Result<Arc<Edition>, AllocError>
        requires own { pass.old.hub ≡ self.now }
        ensures own { pass.new.hub ≡ pass.old.hub }
        ensures grows { Grows pass.old.view pass.new.view }
        ensures keeps { Keeps pass.old.view pass.new.view }
        ensures edition { IfOk result (λ edition. arc_value edition ≡ newest_edition pass.new.view.log) }
        ensures pinned { OnOk result (pass.new.view.pin ≡ Some (length pass.new.view.log)) }
        ensures refused { OnErr result (pass.new.view.pin ≡ pass.old.view.pin) }
    {
        let mut store = self.turn.take(rt, &mut pass.seat);
        pass.seen = store.len();
        match store.share_newest() {
            Ok((own, given)) => {
                store.pin(pass.number);
                self.end(&mut pass.seat, store, Act::Pin);
                pass.pinned = Some(own);
                Ok(given)
            }
            Err(error) => {
                self.end(&mut pass.seat, store, Act::Same);
                Err(error)
            }
        }
    }

    /// Ends the pin, if there is one. It takes no memory.
    pub fn unpin<R: Wait>(&self, rt: &R, pass: &mut Pass)
        requires own { pass.old.hub ≡ self.now }
        ensures own { pass.new.hub ≡ pass.old.hub }
        ensures grows { Grows pass.old.view pass.new.view }
        ensures keeps { Keeps pass.old.view pass.new.view }
        ensures pin { pass.new.view.pin ≡ None }
    {
        let mut store = self.turn.take(rt, &mut pass.seat);
        pass.seen = store.len();
        if pass.pinned.is_none() {
            self.end(&mut pass.seat, store, Act::Same);
            return;
        }
        store.unpin(pass.number);
        self.end(&mut pass.seat, store, Act::Unpin);
        pass.pinned = None;
    }

    /// A pass for the next caller, which has seen what this one has.
    ///
    /// It is refused with [`PassError::CallersFull`] where 1,000,000 passes were made by this call.
    pub fn new_pass<R: Wait>(&self, rt: &R, from: &mut Pass) -> Result<Pass, PassError>
        requires own { from.old.hub ≡ self.now }
        ensures own { from.new.hub ≡ from.old.hub }
        ensures grows { Grows from.old.view from.new.view }
        ensures keeps { Keeps from.old.view from.new.view }
        ensures pin { from.new.view.pin ≡ from.old.view.pin }
        ensures its_own { IfOk result (λ pass. pass.hub ≡ from.old.hub) }
        ensures fresh { IfOk result (λ pass. IsFresh from.old.view pass.view) }
        ensures full { IfErr result (IsFull from.new.view) }
    {
        let mut seat = self.turn.split(&mut from.seat);
        let mut store = self.turn.take(rt, &mut seat);
        let seen = store.len();
        match store.join() {
            Ok(number) => {
                self.end(&mut seat, store, Act::Join);
                Ok(Pass {
                    seat,
                    number,
                    seen,
                    pinned: None,
                })
            }
            Err(unmade) => {
                self.end(&mut seat, store, Act::Same);
                self.turn.join(&mut from.seat, seat);
                from.seen = self.turn.count(&mut from.seat);
                Err(unmade)
            }
        }
    }

    /// What the pass has seen, for another one to learn. It waits for nobody and takes no memory.
    pub fn note(&self, pass: &mut Pass) -> Note
        requires own { pass.old.hub ≡ self.now }
        ensures same { pass.new ≡ pass.old }
        ensures its_own { result.hub ≡ pass.old.hub }
        ensures noted { IsNoted pass.old.view result.view }
    {
        Note {
            seat: self.turn.split(&mut pass.seat),
        }
    }

    /// Afterwards the pass has seen what the note's pass had seen. It waits for nobody and takes no
    /// memory.
    pub fn learn(&self, pass: &mut Pass, note: Note)
        requires own { pass.old.hub ≡ self.now }
        requires its_own { note.hub ≡ self.now }
        ensures own { pass.new.hub ≡ pass.old.hub }
        ensures grows { Grows pass.old.view pass.new.view }
        ensures keeps { Keeps pass.old.view pass.new.view }
        ensures pin { pass.new.view.pin ≡ pass.old.view.pin }
        ensures learnt { Learns note.view pass.new.view }
    {
        let Note { seat } = note;
        self.turn.join(&mut pass.seat, seat);
        let seen = self.turn.count(&mut pass.seat);
        pass.seen = seen;
    }

    /// A pass without a pin leaves into another one. It takes no memory.
    pub fn leave<R: Wait>(&self, rt: &R, into: &mut Pass, pass: Pass)
        requires own { into.old.hub ≡ self.now }
        requires its_own { pass.hub ≡ self.now }
        requires unpinned { pass.view.pin ≡ None }
        ensures own { into.new.hub ≡ into.old.hub }
        ensures inherits { Inherits into.old.view pass.view into.new.view }
    {
        let Pass {
            seat,
            number,
            seen: _,
            pinned: _,
        } = pass;
        self.turn.join(&mut into.seat, seat);
        let mut store = self.turn.take(rt, &mut into.seat);
        into.seen = store.len();
        store.leave(number);
        self.end(&mut into.seat, store, Act::Leave);
    }

    /// Ends the hub, and gives its log. It is refused where other passes haven't left, with their
    /// number.
    pub fn close<R: Wait>(self, rt: &R, pass: Pass) -> Result<Log, (CloseError, Hub, Pass)>
        requires own { pass.hub ≡ self }
        ensures closes { IfOk result (Closes pass.view) }
        ensures own { IfErr result (λ back. (back.1 ≡ self) × (back.2.hub ≡ self)) }
        ensures grows { IfErr result (λ back. Grows pass.view back.2.view) }
        ensures keeps { IfErr result (λ back. Keeps pass.view back.2.view) }
        ensures pin { IfErr result (λ back. back.2.view.pin ≡ pass.view.pin) }
        ensures others { IfErr result (λ back. HasOthers back.2.view back.0) }
    {
        let mut pass = pass;
        let store = self.turn.take(rt, &mut pass.seat);
        pass.seen = store.len();
        let live = store.others(pass.number);
        if live == 0 {
            return Ok(store.into_log());
        }
        self.end(&mut pass.seat, store, Act::Same);
        Err((CloseError::Others { live }, self, pass))
    }
}
