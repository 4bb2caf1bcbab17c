//! How far along a log a caller has come.
ghost use Rattle.std.specs.Prelude.{◌≡◌, ◌≤◌, IfOk, OnOk, length};
ghost use Rattle.mf_edition.specs.Sizes.{used_by, IsWithin};
ghost use Rattle.mf_history.specs.Places.{IsNamed, IsPlace, IsUsing, Moves};

use crate::front::{Front, advance_to, advance_until};
use crate::numbers::edition_named;
use mf_edition::Log;
use std::alloc::AllocError;
use std::collections::BTreeSet;

/// Where a caller stands.
#[derive(Debug, Drop)]
pub(crate) struct Place {
    /// The edition that it has seen.
    pub front: Front,
    /// How many entries it has made.
    pub made: u64,
    /// The indexes of the messages of that edition that it was answered from.
    pub served: BTreeSet<u32>,
}

/// Goes on to edition k.
pub(crate) fn go_to(place: &mut Place, log: &Log, k: u64) -> Result<(), AllocError>
    requires log { IsWithin log.now (used_by log.now) }
    requires place { IsPlace log.now place.old }
    requires from { place.old.front.edition.number ≤ k }
    requires within { k ≤ length log.now }
    ensures moves { OnOk result (Moves log.now place.old place.new) }
    ensures there { OnOk result (place.new.front.edition.number ≡ k) }
{
    if place.front.edition.number() < k {
        place.served.clear();
    }
    advance_to(&mut place.front, log, k)?;
    Ok(())
}

/// Goes on to the edition whose changes count for so many bytes, if there is one from here on, and
/// else further.
pub(crate) fn go_until(place: &mut Place, log: &Log, used: u64) -> Result<(), AllocError>
    requires log { IsWithin log.now (used_by log.now) }
    requires place { IsPlace log.now place.old }
    ensures moves { OnOk result (Moves log.now place.old place.new) }
    ensures there { OnOk result (IsUsing log.now used place.old.front place.new.front) }
{
    let from = place.front.edition.number();
    advance_until(&mut place.front, log, used)?;
    if from < place.front.edition.number() {
        place.served.clear();
    }
    Ok(())
}

/// Goes on to the edition that a reply names, where that isn't below the one here: whether there is
/// one.
pub(crate) fn go_to_named(place: &mut Place, log: &Log, said: &str) -> Result<bool, AllocError>
    requires log { IsWithin log.now (used_by log.now) }
    requires place { IsPlace log.now place.old }
    ensures { IfOk result (IsNamed log.now said.now place.old place.new) }
{
    let Some(k) = edition_named(said) else {
        return Ok(false);
    };
    if k < place.front.edition.number() || k > log.len() {
        return Ok(false);
    }
    go_to(place, log, k)?;
    Ok(true)
}
