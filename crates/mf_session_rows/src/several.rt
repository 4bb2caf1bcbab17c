//! Sessions with several callers of one hub.
ghost use Rattle.std.specs.Prelude.{◌≡◌, All, IfOk};
ghost use Rattle.mf_session_rows.specs.Calling.{IsAt};

use crate::callers::{Caller, talk, talk_held, talk_together};
use crate::gates::SecondPin;
use crate::history::Spoken;
use mf_edition::Log;
use mf_hub::{Hub, Pass};
use mf_io::NoGate;
use std::alloc::{AllocError, Global};
use std::sync::Wait;
use std::thread::Threads;

/// The callers 0, 1 and 2 after their sessions: caller 0 is answered first, and caller 1 is held
/// before its second pin until caller 2 is answered.
pub fn held<R: Threads + Wait + Sync>(
    rt: &R,
    alloc: Global,
    inputs: [&[u8]; 3],
) -> Result<Vec<Caller>, AllocError> {
    let [zero, one, two] = inputs;
    let (hub, pass) = Hub::new(alloc)?;
    let caller = Caller::new(alloc, pass, zero)?;
    let mut home = talk(rt, alloc, &hub, caller, usize::MAX, &NoGate);
    let callers = two_callers(rt, alloc, &hub, &mut home.pass, one, two)?;
    let mut told = talk_held(rt, alloc, &hub, callers, &SecondPin::new())?;
    told.insert(0, home)?;
    Ok(told)
}

/// What the callers 1 and 2 sent and got, each in a thread of its own, and the log.
pub fn together<R: Threads + Wait + Sync>(
    rt: &R,
    alloc: Global,
    one: &[u8],
    two: &[u8],
) -> Result<(Vec<Spoken>, Option<Log>), AllocError> {
    let (hub, mut home) = Hub::new(alloc)?;
    let callers = two_callers(rt, alloc, &hub, &mut home, one, two)?;
    let told = talk_together(rt, alloc, &hub, callers)?;
    let spoken = leave_all(rt, alloc, &hub, &mut home, told)?;
    Ok((spoken, hub.close(rt, home).ok()))
}

/// The next two callers of a hub.
fn two_callers<R: Wait>(
    rt: &R,
    alloc: Global,
    hub: &Hub,
    home: &mut Pass,
    one: &[u8],
    two: &[u8],
) -> Result<Vec<Caller>, AllocError>
    requires { home.old.hub ≡ hub.now }
    ensures home { home.new.hub ≡ hub.now }
    ensures callers { IfOk result (λ callers. All (IsAt hub.now) callers.items) }
{
    let first = next_caller(rt, alloc, hub, home, one)?;
    let second = next_caller(rt, alloc, hub, home, two)?;
    let mut callers = Vec::with_capacity(alloc, 2)?;
    callers.push(first)?;
    callers.push(second)?;
    Ok(callers)
}

/// The next caller of a hub.
fn next_caller<R: Wait>(
    rt: &R,
    alloc: Global,
    hub: &Hub,
    home: &mut Pass,
    input: &[u8],
) -> Result<Caller, AllocError>
    requires { home.old.hub ≡ hub.now }
    ensures home { home.new.hub ≡ hub.now }
    ensures caller { IfOk result (IsAt hub.now) }
{
    match hub.new_pass(rt, home) {
        Ok(pass) => Caller::new(alloc, pass, input),
        Err(_) => Err(AllocError),
    }
}

/// All of these leave into one: what each of them sent and got.
fn leave_all<R: Wait>(
    rt: &R,
    alloc: Global,
    hub: &Hub,
    home: &mut Pass,
    callers: Vec<Caller>,
) -> Result<Vec<Spoken>, AllocError>
    requires home { home.old.hub ≡ hub.now }
    requires callers { All (IsAt hub.now) callers.items }
    ensures { home.new.hub ≡ hub.now }
{
    let mut callers = callers;
    let mut spoken = Vec::with_capacity(alloc, callers.len())?;
    while let Some(next) = callers.pop() {
        let Caller {
            pass,
            input,
            output,
            status: _,
        } = next;
        let caller = pass.number();
        hub.leave(rt, home, pass);
        spoken.push(Spoken {
            caller,
            input,
            output,
        })?;
    }
    Ok(spoken)
}
