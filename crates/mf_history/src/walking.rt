//! The lines of one caller, read one after the other.
ghost use Rattle.std.specs.Prelude.{◌≡◌, ◌≤◌, ◌+◌, ◌^◌, IfOk, MatchOption, length};
ghost use Rattle.mf_edition.specs.Sizes.{used_by, IsWithin};
ghost use Rattle.mf_history.specs.Records.{said_by};
ghost use Rattle.mf_history.specs.Verdicts.{Fits, FirstUnfit};
ghost use Rattle.mf_history.specs.Walks.{IsStart, Stands, Walks};
ghost use Rattle.mf_legal.specs.Calls.{made_by};

use crate::front::Front;
use crate::place::Place;
use crate::reading::read;
use crate::{Exchange, Transcript};
use mf_edition::Log;
use std::alloc::{AllocError, Global};
use std::collections::BTreeSet;

/// The place, from 1, of the first line of a caller that doesn't fit, if there is one: its
/// transcripts are joined, and an entry that none of its lines claims is shown as the number of its
/// lines plus one.
pub(crate) fn first_unfit(
    alloc: Global,
    log: &Log,
    caller: u64,
    most: u64,
    transcripts: &[Transcript],
) -> Result<Option<u64>, AllocError>
    requires log { IsWithin log.now (used_by log.now) }
    requires few { most ≤ 2 ^ 63 }
    ensures { IfOk result (λ unfit. MatchOption unfit
        (Fits most log.now caller (said_by caller transcripts.now))
        (FirstUnfit most log.now caller (said_by caller transcripts.now))) }
{
    let mut place = start(alloc)?;
    let mut passed = 0;
    for transcript in transcripts {
        if transcript.caller != caller {
            continue;
        }
        let lines = transcript.lines.as_slice();
        if let Some(more) = walk(alloc, &mut place, log, caller, most, lines)? {
            let unfit = sum(passed, more)?;
            return Ok(Some(sum(unfit, 1)?));
        }
        passed = sum(passed, lines.len() as u64)?;
    }
    if place.made == entries_of(log, caller) {
        return Ok(None);
    }
    Ok(Some(sum(passed, 1)?))
}

/// Where every caller stands before its first line.
fn start(alloc: Global) -> Result<Place, AllocError>
    ensures { IfOk result IsStart }
{
    Ok(Place {
        front: Front::new(alloc)?,
        made: 0,
        served: BTreeSet::new(alloc),
    })
}

/// Reads lines: how many stand before the first that doesn't fit, if there is one.
fn walk(
    alloc: Global,
    place: &mut Place,
    log: &Log,
    caller: u64,
    most: u64,
    lines: &[Exchange],
) -> Result<Option<u64>, AllocError>
    requires log { IsWithin log.now (used_by log.now) }
    requires place { Stands log.now place.old }
    requires few { most ≤ 2 ^ 63 }
    ensures { IfOk result (Walks most log.now caller lines.now place.old place.new) }
{
    let mut passed = 0;
    for exchange in lines {
        if !read(alloc, place, log, caller, most, exchange)? {
            return Ok(Some(passed));
        }
        passed += 1;
    }
    Ok(None)
}

/// How many entries of a log a caller made.
fn entries_of(log: &Log, caller: u64) -> u64
    ensures { result ≡ made_by caller log.now }
{
    let mut made = 0;
    for k in 0..log.len() {
        if let Some(entry) = log.get(k) {
            if entry.caller == caller {
                made += 1;
            }
        }
    }
    made
}

/// A sum of two numbers of lines; there is no memory for 2^64 lines.
pub(crate) fn sum(lines: u64, more: u64) -> Result<u64, AllocError>
    ensures { IfOk result (λ sum. sum ≡ lines + more) }
{
    match lines.checked_add(more) {
        Some(sum) => Ok(sum),
        None => Err(AllocError),
    }
}
