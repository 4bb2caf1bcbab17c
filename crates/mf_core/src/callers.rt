//! The states of callers, by their numbers.
ghost use Rattle.std.specs.Prelude.{◌≡◌, ◌<◌, ◌+◌, Some, length, OnErr, OnOk};
ghost use Rattle.mf_core.specs.Kept.{state_at, JoinsState, PutsState};
ghost use Rattle.mf_core.specs.Worlds.{away};

use crate::CallerState;
use std::alloc::AllocError;

/// The state of a caller that isn't joined.
const AWAY: CallerState = CallerState {
    joined: false,
    made: 0,
    seen: 0,
    pinned: None,
    claim: None,
};

/// The state of a caller.
pub(crate) fn state_at(callers: &Vec<CallerState>, caller: u64) -> CallerState
    ensures { result ≡ state_at callers.now.items caller }
{
    match callers.get(caller as usize) {
        None => AWAY,
        Some(state) => *state,
    }
}

/// One caller more joins, who has seen so much.
pub(crate) fn push_state(callers: &mut Vec<CallerState>, seen: u64) -> Result<(), AllocError>
    ensures many { OnOk result (length callers.new.items ≡ length callers.old.items + 1) }
    ensures states { OnOk result (JoinsState callers.old.items callers.new.items seen) }
    ensures err { OnErr result (callers.new.items ≡ callers.old.items) }
{
    callers.reserve(1)?;
    callers.push_reserved(CallerState {
        joined: true,
        seen,
        ..AWAY
    });
    Ok(())
}

/// A caller has made and seen so much.
pub(crate) fn put_made(callers: &mut Vec<CallerState>, caller: u64, made: u64, seen: u64)
    requires { caller < length callers.old.items }
    ensures { PutsState callers.old.items callers.new.items caller (record (state_at callers.old.items caller) { made = made; seen = seen }) }
{
    let state = &mut callers[caller as usize];
    state.made = made;
    state.seen = seen;
}

/// A caller has pinned this, and has seen so much.
pub(crate) fn put_pin(callers: &mut Vec<CallerState>, caller: u64, pinned: Option<u64>, seen: u64)
    requires { caller < length callers.old.items }
    ensures { PutsState callers.old.items callers.new.items caller (record (state_at callers.old.items caller) { pinned = pinned; seen = seen }) }
{
    let state = &mut callers[caller as usize];
    state.pinned = pinned;
    state.seen = seen;
}

/// A caller has claimed this.
pub(crate) fn put_claim(callers: &mut Vec<CallerState>, caller: u64, claim: Option<(u64, u32)>)
    requires { caller < length callers.old.items }
    ensures { PutsState callers.old.items callers.new.items caller (record (state_at callers.old.items caller) { claim = claim }) }
{
    callers[caller as usize].claim = claim;
}

/// A caller leaves.
pub(crate) fn put_away(callers: &mut Vec<CallerState>, caller: u64)
    requires { caller < length callers.old.items }
    ensures { PutsState callers.old.items callers.new.items caller away }
{
    callers[caller as usize] = AWAY;
}
