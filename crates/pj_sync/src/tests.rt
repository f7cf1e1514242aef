//! Names out of logs, what one list lacks of another, and replies out of a source, in worked cases.

use super::*;
use pj_change::Memory;
use pj_io::MemSource;
use pj_machine::{Numbered, Refusal, Reply};
use pj_name::Name;
use pj_replies::Due;
use std::alloc::Global;
use std::test::Fail;

/// A log of two changes, whose names have 32 bytes 17 and 32 bytes 171.
const LOG: &[u8] =
    b"1111111111111111111111111111111111111111111111111111111111111111\nabababababababababababababababababababababababababababababababab\n";

/// The name with 32 of these bytes.
fn name(byte: u8) -> Name {
    Name::of([byte; 32])
}

#[test]
fn a_log_lists_its_names(rt: HostRuntime) -> Result<(), Fail> {
    let found = names_of(rt.alloc(), LOG).map_err(|_| "out of memory")?;
    let names = found.ok_or("no log")?;
    assert!(rt; names.as_slice() == [name(17), name(171)].as_slice());
    Ok(())
}

#[test]
fn no_bytes_are_the_log_of_no_change(rt: HostRuntime) -> Result<(), Fail> {
    let found = names_of(rt.alloc(), b"").map_err(|_| "out of memory")?;
    assert!(rt; found.ok_or("no log")?.is_empty());
    Ok(())
}

#[test]
fn other_bytes_are_no_log(rt: HostRuntime) -> Result<(), Fail> {
    let alloc = rt.alloc();
    for end in [1, 64, 66, 129] {
        let found = names_of(alloc, &LOG[..end]).map_err(|_| "out of memory")?;
        assert!(rt; found.is_none());
    }
    let upper = b"ABABABABABABABABABABABABABABABABABABABABABABABABABABABABABABABAB\n";
    assert!(rt;
        names_of(alloc, upper)
            .map_err(|_| "out of memory")?
            .is_none()
    );
    let longer = b"11111111111111111111111111111111111111111111111111111111111111111\n";
    assert!(rt;
        names_of(alloc, longer)
            .map_err(|_| "out of memory")?
            .is_none()
    );
    Ok(())
}

#[test]
fn what_is_lacked_keeps_its_order(rt: HostRuntime) -> Result<(), Fail> {
    let alloc = rt.alloc();
    let mine = [name(5), name(2)];
    let theirs = [name(9), name(2), name(1), name(7)];
    let gets = lacked(alloc, &mine, &theirs).map_err(|_| "out of memory")?;
    assert!(rt; gets.as_slice() == [name(9), name(1), name(7)].as_slice());
    let gives = lacked(alloc, &theirs, &mine).map_err(|_| "out of memory")?;
    assert!(rt; gives.as_slice() == [name(5)].as_slice());
    Ok(())
}

#[test]
fn a_name_that_stands_twice_is_seen(rt: HostRuntime) -> Result<(), Fail> {
    let alloc = rt.alloc();
    assert!(rt; are_distinct(alloc, &[name(3), name(1), name(2)]).map_err(|_| "out of memory")?);
    assert!(rt; !are_distinct(alloc, &[name(3), name(1), name(3)]).map_err(|_| "out of memory")?);
    Ok(())
}

/// A source with these bytes, which gives one at each call, and fails at these calls.
fn giving(alloc: Global, bytes: &[u8], failing: &[u64]) -> Result<MemSource, Memory> {
    Ok(MemSource::new(
        Vec::from_slice(alloc, bytes)?,
        Vec::from_slice(alloc, &[1])?,
        Vec::from_slice(alloc, failing)?,
    ))
}

/// Whether it says at this place that a change was applied.
fn is_applied(received: Result<Numbered, Stop>, at: u64) -> bool {
    match received {
        Ok(Numbered::At { place, reply }) => match reply {
            Reply::Done => place == at,
            _ => false,
        },
        _ => false,
    }
}

/// Whether it says at this place that there is no such channel.
fn is_refused(received: Result<Numbered, Stop>, at: u64) -> bool {
    match received {
        Ok(Numbered::At { place, reply }) => match reply {
            Reply::No(Refusal::Channel) => place == at,
            _ => false,
        },
        _ => false,
    }
}

/// Why no reply came.
fn stopped(received: Result<Numbered, Stop>) -> Option<Stop> {
    received.err()
}

#[test]
fn replies_come_one_after_the_other(rt: HostRuntime) -> Result<(), Fail> {
    let alloc = rt.alloc();
    let mut source = giving(alloc, b"ok 12\nok 7\n", &[]).map_err(|_| "out of memory")?;
    let mut link = Link::new(alloc, 11);
    assert!(rt; is_applied(link.receive(alloc, &mut source, Due::Apply), 12));
    assert!(rt; is_applied(link.receive(alloc, &mut source, Due::Apply), 7));
    let more = link.receive(alloc, &mut source, Due::Apply);
    assert!(rt; stopped(more) == Some(Stop::Spent));
    Ok(())
}

#[test]
fn each_cut_is_cut(rt: HostRuntime) -> Result<(), Fail> {
    let alloc = rt.alloc();
    let reply = b"no 3 channel\n";
    for end in 0..reply.len() {
        let mut source = giving(alloc, &reply[..end], &[]).map_err(|_| "out of memory")?;
        let mut link = Link::new(alloc, 100);
        let received = link.receive(alloc, &mut source, Due::Log);
        assert!(rt; stopped(received) == Some(Stop::Cut));
    }
    let mut source = giving(alloc, reply, &[]).map_err(|_| "out of memory")?;
    let mut link = Link::new(alloc, 100);
    assert!(rt; is_refused(link.receive(alloc, &mut source, Due::Log), 3));
    Ok(())
}

#[test]
fn strange_bytes_are_told_first(rt: HostRuntime) -> Result<(), Fail> {
    let alloc = rt.alloc();
    let mut source = giving(alloc, b"ok 0x", &[]).map_err(|_| "out of memory")?;
    let mut link = Link::new(alloc, 5);
    let received = link.receive(alloc, &mut source, Due::Apply);
    assert!(rt; stopped(received) == Some(Stop::Strange));
    Ok(())
}

#[test]
fn a_call_that_fails_is_a_fault(rt: HostRuntime) -> Result<(), Fail> {
    let alloc = rt.alloc();
    let mut source = giving(alloc, b"ok 1\n", &[3]).map_err(|_| "out of memory")?;
    let mut link = Link::new(alloc, 100);
    let received = link.receive(alloc, &mut source, Due::Apply);
    assert!(rt; stopped(received) == Some(Stop::ReadFault));
    Ok(())
}
