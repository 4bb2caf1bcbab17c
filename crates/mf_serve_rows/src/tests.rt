//! What no clause says: that sessions run beside one another, that each gets the two ends of one
//! connection, and that threads whose sessions are over are joined as more come.
use crate::{Echo, HoldsFirst, InTurn, Peer, ask, free_address, sink, source};
use mf_io::{MemoryLinks, NoGate, Status, TcpLinks};
use mf_serve::{Served, serve};
use std::sync::atomic::Ordering;
use std::test::Fail;
use std::thread;

fn served(status: Status, ended: u64, faulted: u64, refused: u64) -> Served {
    Served {
        status,
        ended,
        faulted,
        refused,
    }
}

#[test]
fn the_first_is_held_until_the_second_is_answered(rt: HostRuntime) -> Result<(), Fail> {
    let alloc = rt.alloc();
    let job = Echo::new(1, HoldsFirst::new(1), 2);
    let mut home = job.visit();
    let (mut first, mut second) = (sink(alloc, &[])?, sink(alloc, &[])?);
    let mut pairs = Vec::new(alloc);
    pairs.push((source(alloc, b"one\n")?, &mut first))?;
    pairs.push((source(alloc, b"two\n")?, &mut second))?;
    let mut links = MemoryLinks::new(pairs, Vec::new(alloc));
    let all = serve(&rt, alloc, &mut links, &job, &mut home, 10);
    drop(links);
    assert_eq!(rt; all, served(Status::Ended, 2, 0, 0));
    assert!(rt; !job.gate.gave_up.load(Ordering::SeqCst));
    assert_eq!(rt; first.taken(), b"one\n".as_slice());
    assert_eq!(rt; second.taken(), b"two\n".as_slice());
    Ok(())
}

#[test]
fn the_second_accept_fails(rt: HostRuntime) -> Result<(), Fail> {
    let alloc = rt.alloc();
    let job = Echo::new(1, NoGate, 9);
    let mut home = job.visit();
    let mut pairs = Vec::new(alloc);
    for _ in 0..3 {
        pairs.push((source(alloc, b"a\n")?, sink(alloc, &[])?))?;
    }
    let mut links = MemoryLinks::new(pairs, Vec::from_slice(alloc, &[2])?);
    let first = serve(&rt, alloc, &mut links, &job, &mut home, 10);
    assert_eq!(rt; first, served(Status::ListenFault, 1, 0, 0));
    assert_eq!(rt; links.faults(), 1);
    let mut home = job.visit();
    let rest = serve(&rt, alloc, &mut links, &job, &mut home, 10);
    assert_eq!(rt; rest, served(Status::Ended, 2, 0, 0));
    Ok(())
}

#[test]
fn a_peer_closes_in_the_middle_of_a_line(rt: HostRuntime) -> Result<(), Fail> {
    let alloc = rt.alloc();
    let job = Echo::new(1, NoGate, 9);
    let mut home = job.visit();
    let (mut closed, mut gone) = (sink(alloc, &[])?, sink(alloc, &[3])?);
    let mut pairs = Vec::new(alloc);
    pairs.push((source(alloc, b"one\ntw")?, &mut closed))?;
    pairs.push((source(alloc, b"one\ntwo\nthr")?, &mut gone))?;
    let mut links = MemoryLinks::new(pairs, Vec::new(alloc));
    let all = serve(&rt, alloc, &mut links, &job, &mut home, 10);
    drop(links);
    assert_eq!(rt; all, served(Status::Ended, 1, 1, 0));
    assert_eq!(rt; closed.taken(), b"one\ntw".as_slice());
    assert_eq!(rt; gone.taken(), b"one\ntw".as_slice());
    Ok(())
}

#[test]
fn one_that_never_reads_holds_no_other(rt: HostRuntime) -> Result<(), Fail> {
    let alloc = rt.alloc();
    let job = Echo::new(1, HoldsFirst::new(0), 9);
    let mut home = job.visit();
    let (mut never, mut other) = (sink(alloc, &[1])?, sink(alloc, &[])?);
    let mut pairs = Vec::new(alloc);
    pairs.push((
        source(alloc, b"one\n")?,
        Peer::new(&mut never, &job.gate, 1),
    ))?;
    pairs.push((
        source(alloc, b"two\n")?,
        Peer::new(&mut other, &job.gate, 0),
    ))?;
    let mut links = MemoryLinks::new(pairs, Vec::new(alloc));
    let all = serve(&rt, alloc, &mut links, &job, &mut home, 10);
    drop(links);
    assert_eq!(rt; all, served(Status::Ended, 1, 1, 0));
    assert!(rt; !job.gate.gave_up.load(Ordering::SeqCst));
    assert_eq!(rt; never.taken(), b"".as_slice());
    assert_eq!(rt; other.taken(), b"two\n".as_slice());
    Ok(())
}

#[test]
fn two_hundred_come_one_after_the_other(rt: HostRuntime) -> Result<(), Fail> {
    let alloc = rt.alloc();
    let job = Echo::new(1, HoldsFirst::new(0), 200);
    let mut home = job.visit();
    let mut pairs = Vec::new(alloc);
    for _ in 0..200 {
        pairs.push((source(alloc, b"a\n")?, sink(alloc, &[])?))?;
    }
    let links = MemoryLinks::new(pairs, Vec::new(alloc));
    let mut links = InTurn::new(links, &job.gate, &job.returned);
    let all = serve(&rt, alloc, &mut links, &job, &mut home, 1_000_000);
    assert_eq!(rt; all, served(Status::Ended, 200, 0, 0));
    assert_eq!(rt; home.tally.ended, 200);
    assert!(rt; !job.gate.gave_up.load(Ordering::SeqCst));
    assert!(rt; links.most_away < 40);
    Ok(())
}

#[test]
fn the_limit_leaves_connections(rt: HostRuntime) -> Result<(), Fail> {
    let alloc = rt.alloc();
    let job = Echo::new(1, NoGate, 9);
    let mut pairs = Vec::new(alloc);
    for _ in 0..5 {
        pairs.push((source(alloc, b"a\n")?, sink(alloc, &[])?))?;
    }
    let mut links = MemoryLinks::new(pairs, Vec::new(alloc));
    for (limit, ended) in [(0, 0), (2, 2), (2, 2), (2, 1), (2, 0)] {
        let mut home = job.visit();
        let all = serve(&rt, alloc, &mut links, &job, &mut home, limit);
        assert_eq!(rt; all, served(Status::Ended, ended, 0, 0));
    }
    Ok(())
}

#[test]
fn a_job_runs_out_of_tokens(rt: HostRuntime) -> Result<(), Fail> {
    let alloc = rt.alloc();
    let job = Echo::new(1, NoGate, 2);
    let mut home = job.visit();
    let mut pairs = Vec::new(alloc);
    for _ in 0..5 {
        pairs.push((source(alloc, b"a\n")?, sink(alloc, &[])?))?;
    }
    let mut links = MemoryLinks::new(pairs, Vec::new(alloc));
    let all = serve(&rt, alloc, &mut links, &job, &mut home, 10);
    assert_eq!(rt; all, served(Status::Ended, 2, 0, 3));
    assert_eq!(rt; home.tally.refused, 3);
    assert_eq!(rt; job.returned.load(Ordering::SeqCst), 2);
    Ok(())
}

#[test]
fn two_peers_are_served_at_an_address(rt: HostRuntime) -> Result<(), Fail> {
    let alloc = rt.alloc();
    let job = Echo::new(1, NoGate, 2);
    let mut home = job.visit();
    let address = free_address(&rt, alloc)?;
    let mut links = TcpLinks::new(rt, address.as_str().to_string(alloc)?);
    let peers = thread::spawn(&rt, move || {
        let one = ask(&rt, alloc, address.as_str(), b"one\n");
        (one, ask(&rt, alloc, address.as_str(), b"two"))
    })?;
    let all = serve(&rt, alloc, &mut links, &job, &mut home, 2);
    let (one, two) = peers.join(&rt);
    assert_eq!(rt; all, served(Status::Ended, 2, 0, 0));
    assert_eq!(rt; one?.as_slice(), b"one\n".as_slice());
    assert_eq!(rt; two?.as_slice(), b"two".as_slice());
    assert_eq!(rt; links.faults(), 0);
    Ok(())
}
