//! The value that the callers of a hub share.
ghost use Rattle.std.specs.Prelude.{◌≡◌, ◌<◌, ◌≤◌, ℕ, length, true, false, None, Some, Err, IfErr, IfNone, IfOk, IfSome, IsSome, OnErr, OnOk};
ghost use Rattle.std.specs.Arc.{arc_value};
ghost use Rattle.mf_core.specs.Steps.{most_callers};
ghost use Rattle.mf_edition.specs.Edition.{edition_of, newest_edition, next_edition, HasRoom};
ghost use Rattle.mf_edition.specs.Sizes.{most_entries, refusal_of, IsDue};
ghost use Rattle.mf_hub.specs.Desks.{IsPlanAt};
ghost use Rattle.mf_hub.specs.Stores.{account_of, caller_of, others_below, world_of, GetsOf, IsCount, IsFirstStore, IsFullAt, IsMade, IsStep, Stands};
ghost use Rattle.mf_transcript.specs.Steps.{next_entry};
ghost use Rattle.mf_turn.specs.Account.{entries_by, Changes, Joins, Leaves, Publishes};

use crate::got::Got;
use crate::stat::Stat;
use mf_core::{Board, CoreError};
use mf_edition::{Change, Edition, Entry, Log, PublishError, editions_follow, editions_stay};
use mf_flight::{Asked, Spent, Ticket};
use mf_io::PassError;
use mf_plan::Plan;
use mf_turn::Shared;
use std::alloc::{AllocError, Global};
use std::marker::Model;
use std::mem;
use std::sync::Arc;

/// What the callers of a hub share: the board of the core, the newest edition, and the number of
/// tickets that were given back, which stays at 2^64 - 1.
#[derive(Debug, Drop)]
pub struct Store {
    board: Board<Arc<Plan>>,
    newest: Arc<Edition>,
    given: u64,
}

/// The edition after a change, to be shared.
pub(crate) fn made_from(
    alloc: Global,
    edition: &Edition,
    change: &Change,
) -> Result<Arc<Edition>, AllocError>
    requires { HasRoom edition.now change.now }
    ensures { IfOk result (λ next. arc_value next ≡ next_edition edition.now change.now) }
{
    let next = edition.next(change)?;
    Ok(Arc::new(alloc, next)?)
}

impl Model for Store {
    ghost use Rattle.mf_hub.specs.Codes.{stored_code};
    ghost use Rattle.mf_hub.specs.Stores.{IsStore, Stored};

    ghost Value = { Stored };

    ghost coded = { stored_code };

    ghost view = { λ s. record { board = s.board; given = s.given } };

    ghost invariant = { λ s. IsStore s.board s.newest s.given };
}

impl Shared for Store {
    ghost use Rattle.mf_hub.specs.Stores.{account_of, caller_of, nth_of};

    type Entry = Entry;

    ghost caller = { caller_of };

    ghost nth = { nth_of };

    ghost account = { account_of };
}

impl Store {
    /// That with which a hub begins: caller 0 has joined.
    pub(crate) fn new(alloc: Global) -> Result<Store, AllocError>
        ensures { IfOk result IsFirstStore }
    {
        let mut board = Board::new(alloc)?;
        let newest = Arc::new(alloc, Edition::empty(alloc)?)?;
        if board.join(0).is_err() {
            return Err(AllocError);
        }
        Ok(Store {
            board,
            newest,
            given: 0,
        })
    }

    /// The number of the newest edition.
    pub(crate) fn len(&self) -> u64
        ensures { result ≡ length (world_of self.now).log }
    {
        self.board.log().len()
    }

    /// The newest edition, shared, where it takes this change.
    pub(crate) fn newest_for(&self, change: &Change) -> Result<Arc<Edition>, PublishError>
        ensures newest { IfOk result (λ newest. arc_value newest ≡ newest_edition (world_of self.now).log) }
        ensures room { OnOk result (HasRoom (newest_edition (world_of self.now).log) change.now) }
        ensures accepted { OnOk result (refusal_of (world_of self.now).log change.now ≡ None) }
        ensures refused { IfErr result (IsDue (refusal_of (world_of self.now).log change.now)) }
    {
        if let Some(refusal) = self.board.log().refusal(change) {
            return Err(refusal.into());
        }
        Ok(self.newest.clone()?)
    }

    /// The newest edition, shared twice.
    pub(crate) fn share_newest(&self) -> Result<(Arc<Edition>, Arc<Edition>), AllocError>
        ensures first { IfOk result (λ both. arc_value both.0 ≡ newest_edition (world_of self.now).log) }
        ensures second { IfOk result (λ both. arc_value both.1 ≡ newest_edition (world_of self.now).log) }
    {
        let first = self.newest.clone()?;
        let second = self.newest.clone()?;
        Ok((first, second))
    }

    /// The edition after a change: this one, where it is the next one, and else one that is made
    /// now.
    fn next_edition(
        &self,
        alloc: Global,
        change: &Change,
        made: Arc<Edition>,
    ) -> Result<Arc<Edition>, PublishError>
        requires made { IsMade (world_of self.now).log change.now (arc_value made) }
        ensures next { IfOk result
            (λ next. arc_value next ≡ next_edition (newest_edition (world_of self.now).log) change.now) }
        ensures refused { IfErr result (IsDue (refusal_of (world_of self.now).log change.now)) }
    {
        if let Some(refusal) = self.board.log().refusal(change) {
            return Err(refusal.into());
        }
        if made.number() == self.len() + 1 {
            return Ok(made);
        }
        Ok(made_from(alloc, &self.newest, change)?)
    }

    /// A caller makes an entry. The edition before it is returned. The edition that it makes is
    /// this one, where it is the next one. After an error all is as it was.
    pub(crate) fn publish(
        &mut self,
        alloc: Global,
        caller: u64,
        change: Change,
        made: Arc<Edition>,
    ) -> Result<Arc<Edition>, PublishError>
        requires joined { ((world_of self.old).caller caller).joined ≡ true }
        requires made { IsMade (world_of self.old).log change (arc_value made) }
        ensures step { OnOk result (IsStep (world_of self.old) (world_of self.new)) }
        ensures publishes { OnOk result
            (Publishes (next_entry caller (entries_by caller_of caller (world_of self.old).log) change)
            (account_of self.old) (account_of self.new)) }
        ensures few { length (world_of self.old).log ≤ most_entries }
        ensures accepted { OnOk result (refusal_of (world_of self.old).log change ≡ None) }
        ensures refused { IfErr result (IsDue (refusal_of (world_of self.old).log change)) }
        ensures err { OnErr result (Stands self.old self.new) }
    {
        editions_stay();
        editions_follow();
        let edition = self.next_edition(alloc, &change, made)?;
        self.board.publish(caller, change, edition.len())?;
        Ok(mem::replace(&mut self.newest, edition))
    }

    /// A caller pins the newest edition, whose number is returned.
    pub(crate) fn pin(&mut self, caller: u64) -> u64
        requires joined { ((world_of self.old).caller caller).joined ≡ true }
        requires free { ((world_of self.old).caller caller).claim ≡ None }
        ensures newest { result ≡ length (world_of self.old).log }
        ensures step { IsStep (world_of self.old) (world_of self.new) }
        ensures pins { Changes caller (Some result) None 0 (account_of self.old) (account_of self.new) }
    {
        self.board.pin(caller)
    }

    /// A caller ends its pin.
    pub(crate) fn unpin(&mut self, caller: u64)
        requires joined { ((world_of self.old).caller caller).joined ≡ true }
        requires free { ((world_of self.old).caller caller).claim ≡ None }
        requires pinned { IsSome ((world_of self.old).caller caller).pinned }
        ensures step { IsStep (world_of self.old) (world_of self.new) }
        ensures unpins { Changes caller None None 0 (account_of self.old) (account_of self.new) }
    {
        self.board.unpin(caller);
    }

    /// The next caller joins, and its number is returned. After an error all is as it was.
    pub(crate) fn join(&mut self) -> Result<u64, PassError>
        ensures number { IfOk result (λ n. n ≡ (world_of self.old).next) }
        ensures few { IfOk result (λ n. n < most_callers) }
        ensures step { OnOk result (IsStep (world_of self.old) (world_of self.new)) }
        ensures joins { OnOk result (Joins (account_of self.old) (account_of self.new)) }
        ensures full { IfErr result (IsFullAt (world_of self.old).next) }
        ensures err { OnErr result (Stands self.old self.new) }
    {
        let number = self.board.next_caller();
        match self.board.join(number) {
            Ok(_) => Ok(number),
            Err(CoreError::CallersFull) => Err(PassError::CallersFull { made: number - 1 }),
            Err(_) => Err(PassError::OutOfMemory),
        }
    }

    /// A caller leaves.
    pub(crate) fn leave(&mut self, caller: u64)
        requires joined { ((world_of self.old).caller caller).joined ≡ true }
        requires free { ((world_of self.old).caller caller).claim ≡ None }
        requires unpinned { ((world_of self.old).caller caller).pinned ≡ None }
        ensures step { IsStep (world_of self.old) (world_of self.new) }
        ensures leaves { Leaves caller (account_of self.old) (account_of self.new) }
    {
        self.board.leave(caller);
    }

    /// A caller asks for a message of the edition that it has pinned: none where another compiles
    /// it. After an error all is as it was.
    pub(crate) fn ask(
        &mut self,
        caller: u64,
        edition: u64,
        index: u32,
    ) -> Result<Option<Got>, AllocError>
        requires joined { ((world_of self.old).caller caller).joined ≡ true }
        requires free { ((world_of self.old).caller caller).claim ≡ None }
        requires pinned { ((world_of self.old).caller caller).pinned ≡ Some edition }
        requires inside { index < length (edition_of (world_of self.old).log edition).items }
        ensures got { IfOk result (λ got. IfSome got (GetsOf caller edition index self.old self.new)) }
        ensures busy { IfOk result (λ got. IfNone got (Stands self.old self.new)) }
        ensures err { OnErr result (Stands self.old self.new) }
    {
        if let Some(plan) = self.board.plan(edition, index) {
            let shared: Result<_, _> = plan.clone();
            return Ok(Some(Got::Ready(shared?)));
        }
        match self.board.ask(caller, index)? {
            Asked::Claimed(ticket) => Ok(Some(Got::Claimed(ticket))),
            Asked::Busy => Ok(None),
            Asked::Ready => unreachable!(),
        }
    }

    /// The message that a caller has claimed is compiled to this plan.
    pub(crate) fn done(&mut self, caller: u64, spent: Spent, plan: Arc<Plan>)
        requires joined { ((world_of self.old).caller caller).joined ≡ true }
        requires claim { ((world_of self.old).caller caller).claim ≡ Some spent }
        requires plan { IsPlanAt (edition_of (world_of self.old).log spent.0) spent.1 (arc_value plan) }
        ensures step { IsStep (world_of self.old) (world_of self.new) }
        ensures done { Changes caller ((world_of self.old).caller caller).pinned None 0
            (account_of self.old) (account_of self.new) }
        ensures ready { (account_of self.new).ready spent.0 spent.1 ≡ true }
    {
        self.board.done(caller, spent, plan);
    }

    /// A caller gives back the ticket for the message that it has claimed.
    pub(crate) fn quit(&mut self, caller: u64, ticket: Ticket)
        requires joined { ((world_of self.old).caller caller).joined ≡ true }
        requires claim { ((world_of self.old).caller caller).claim ≡ Some ticket }
        ensures step { IsStep (world_of self.old) (world_of self.new) }
        ensures quits { Changes caller ((world_of self.old).caller caller).pinned None 1
            (account_of self.old) (account_of self.new) }
    {
        self.board.quit(caller, ticket);
        self.given = self.given.saturating_add(1);
    }

    /// How far the messages of the newest edition are compiled.
    pub(crate) fn stat(&self) -> Stat
        ensures { IsCount result self.now }
    {
        let edition = self.board.log().len();
        let (starts, quits) = self.board.totals(edition);
        Stat::of(edition, starts, quits)
    }

    /// How many callers are joined beside this one.
    pub(crate) fn others(&self, caller: u64) -> u64
        ensures others { result ≡ others_below (world_of self.now) caller (world_of self.now).next }
        ensures beyond { (m : ℕ) → (world_of self.now).next ≤ m
            → ((world_of self.now).caller m).joined ≡ false }
    {
        let mut others = 0;
        for number in 0..self.board.next_caller() {
            if number != caller && self.board.caller(number).joined {
                others += 1;
            }
        }
        others
    }

    /// The log, all else being given up.
    pub(crate) fn into_log(self) -> Log
        ensures { result ≡ (world_of self).log }
    {
        let Store {
            board,
            newest: _,
            given: _,
        } = self;
        board.into_log()
    }
}
