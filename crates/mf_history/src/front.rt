//! Editions of a log, one after the other.
ghost use Rattle.std.specs.Prelude.{ℕ, ◌≡◌, ◌≤◌, ◌<◌, ◌+◌, length, IfOk, OnOk};
ghost use Rattle.mf_edition.specs.Edition.{empty_edition};
ghost use Rattle.mf_edition.specs.Sizes.{used_by, IsWithin};
ghost use Rattle.mf_history.specs.Places.{front_of, IsFront, IsLater, IsUsing};

use mf_edition::{Edition, Log};
use std::alloc::{AllocError, Global};

/// An edition of a log, and the bytes that its changes count for.
#[derive(Debug, Drop)]
pub(crate) struct Front {
    pub edition: Edition,
    pub used: u64,
}

impl Front {
    /// The edition of no changes.
    pub(crate) fn new(alloc: Global) -> Result<Front, AllocError>
        ensures { IfOk result (λ front. (front.edition ≡ empty_edition) × (front.used ≡ 0)) }
    {
        let edition = Edition::empty(alloc)?;
        Ok(Front { edition, used: 0 })
    }
}

/// Goes on to the next edition.
fn advance(front: &mut Front, log: &Log) -> Result<(), AllocError>
    requires log { IsWithin log.now (used_by log.now) }
    requires front { IsFront log.now front.old }
    requires more { front.old.edition.number < length log.now }
    ensures is { OnOk result (front.new ≡ front_of log.now (front.old.edition.number + 1)) }
{
    let Some(entry) = log.get(front.edition.number()) else {
        unreachable!()
    };
    let size = entry.change.size();
    front.edition.advance(&entry.change)?;
    front.used += size;
    Ok(())
}

/// Goes on to edition k.
pub(crate) fn advance_to(front: &mut Front, log: &Log, k: u64) -> Result<(), AllocError>
    requires log { IsWithin log.now (used_by log.now) }
    requires front { IsFront log.now front.old }
    requires from { front.old.edition.number ≤ k }
    requires within { k ≤ length log.now }
    ensures is { OnOk result (front.new ≡ front_of log.now k) }
{
    while front.edition.number() < k {
        advance(front, log)?;
    }
    Ok(())
}

/// Goes on to the edition whose changes count for so many bytes, if there is one from here on, and
/// else further.
pub(crate) fn advance_until(front: &mut Front, log: &Log, used: u64) -> Result<(), AllocError>
    requires log { IsWithin log.now (used_by log.now) }
    requires front { IsFront log.now front.old }
    ensures later { OnOk result (IsLater log.now front.old front.new) }
    ensures there { OnOk result (IsUsing log.now used front.old front.new) }
{
    while front.used < used && front.edition.number() < log.len() {
        advance(front, log)?;
    }
    Ok(())
}
