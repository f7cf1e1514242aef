//! What no clause of the crate says: that its calls succeed, and what they give in worked cases.
ghost use Rattle.std.specs.Prelude.{◌<◌, ◌^◌, vec_len};

use crate::*;
use std::alloc::Global;
use std::collections::BTreeMap;
use std::process::Abort;

// A vector of these.
fn vector<T: Copy>(rt: &impl Abort, alloc: Global, items: &[T]) -> Vec<T> {
    items.to_vec(alloc).expect(rt, "memory")
}

// A source that gives one byte, and from then on three at most.
fn source(rt: &impl Abort, alloc: Global, bytes: &[u8], failing: &[u64]) -> MemSource {
    let pieces = vec![in alloc; 1, 3].expect(rt, "memory");
    MemSource::new(vector(rt, alloc, bytes), pieces, vector(rt, alloc, failing))
}

// Nothing is in pieces, and nothing fails.
fn plain_ways(alloc: Global) -> Ways {
    Ways {
        pieces: Vec::new(alloc),
        take_failing: Vec::new(alloc),
        piece: 4096,
        give_failing: Vec::new(alloc),
    }
}

// Three sessions.
fn sessions(rt: &impl Abort, alloc: Global) -> Vec<Vec<u8>>
    ensures { vec_len result < 2 ^ 32 }
{
    let one = vector(rt, alloc, b"one");
    let two = vector(rt, alloc, b"two");
    vec![in alloc; one, two, vector(rt, alloc, b"three")].expect(rt, "memory")
}

// A plan with an input, a script and the three sessions at one address.
fn plan(rt: &impl Abort, alloc: Global, open_failing: &[u64]) -> Plan {
    let path = String::from_str(alloc, "first").expect(rt, "memory");
    let mut scripts = BTreeMap::new(alloc);
    assert!(rt; scripts.insert(path, vector(rt, alloc, b"log")).is_ok());
    let address = String::from_str(alloc, "here:1").expect(rt, "memory");
    let mut listed = BTreeMap::new(alloc);
    assert!(rt; listed.insert(address, sessions(rt, alloc)).is_ok());
    Plan {
        input: vector(rt, alloc, b"text"),
        scripts,
        sessions: listed,
        ways: plain_ways(alloc),
        accept_failing: Vec::new(alloc),
        open_failing: vector(rt, alloc, open_failing),
    }
}

// The next call gives these bytes.
fn assert_takes<S: Source>(rt: &impl Abort, source: &mut S, bytes: &[u8]) {
    let mut buffer = [0; 8];
    let count = source.take(&mut buffer).expect(rt, "no fault");
    assert_eq!(rt; &buffer[..count], bytes);
}

// The next call fails.
fn assert_fails<S: Source>(rt: &impl Abort, source: &mut S) {
    assert!(rt; source.take(&mut [0; 8]).is_err());
}

// The next session sends these bytes, and so many are left.
fn assert_next<D: Door>(rt: &impl Abort, door: &mut D, bytes: &[u8], left: u32) {
    let pair = door.accept().expect(rt, "no refusal");
    let (mut source, _) = pair.expect(rt, "a session");
    assert_takes(rt, &mut source, bytes);
    assert_eq!(rt; door.left(), left);
}

#[test]
fn a_source_fails_at_its_first_and_third_call(rt: HostRuntime) {
    let mut source = source(&rt, rt.alloc(), b"abcd", &[1, 3]);
    assert_fails(&rt, &mut source);
    assert_takes(&rt, &mut source, b"abc");
    assert_eq!(rt; source.left(), b"d".as_slice());
    assert_fails(&rt, &mut source);
    assert_eq!(rt; source.faults(), 2);
    source.shut();
}

// A sink that takes one byte a call, and fails at one call, has this front of the bytes then.
fn assert_front(rt: &impl Abort, alloc: Global, failing: u64, front: &[u8]) {
    let label = String::from_str(alloc, "out").expect(rt, "memory");
    let mut sink = MemSink::new(label, 1, vector(rt, alloc, &[failing]));
    assert!(rt; give_all(&mut sink, b"abc").is_err());
    assert_eq!(rt; sink.written(), front);
    assert_eq!(rt; sink.faults(), 1);
    assert_eq!(rt; sink.label(), "out");
    sink.shut();
}

#[test]
fn a_sink_that_fails_at_each_of_its_calls_keeps_the_front(rt: HostRuntime) {
    assert_front(&rt, rt.alloc(), 1, b"");
    assert_front(&rt, rt.alloc(), 2, b"a");
    assert_front(&rt, rt.alloc(), 3, b"ab");
}

#[test]
fn a_door_gives_its_sessions_in_order(rt: HostRuntime) {
    let alloc = rt.alloc();
    let failing = vector(&rt, alloc, &[1]);
    let mut door = MemDoor::new(sessions(&rt, alloc), plain_ways(alloc), failing);
    assert!(rt; door.accept().is_err());
    assert_eq!(rt; door.faults(), 1);
    assert_next(&rt, &mut door, b"one", 2);
    let pair = door.accept().expect(&rt, "no refusal");
    let (_, sink) = pair.expect(&rt, "a session");
    assert_eq!(rt; sink.label(), "2");
}

#[test]
fn a_sure_door_ends_after_its_last_session(rt: HostRuntime) {
    let mut door = SureDoor::new(sessions(&rt, rt.alloc()));
    assert_next(&rt, &mut door, b"one", 2);
    assert_next(&rt, &mut door, b"two", 1);
    assert_next(&rt, &mut door, b"three", 0);
    assert!(rt; door.accept().expect(&rt, "no refusal").is_none());
}

#[test]
fn the_second_opening_fails(rt: HostRuntime) {
    let mut office = MemOffice::new(plan(&rt, rt.alloc(), &[2]));
    let mut input = office.input().expect(&rt, "no refusal");
    assert_takes(&rt, &mut input, b"text");
    assert!(rt; office.output().is_err());
    assert_eq!(rt; office.read_faults(), 0);
    assert_eq!(rt; office.write_faults(), 1);
}

#[test]
fn a_script_is_opened_by_its_path(rt: HostRuntime) {
    let mut office = MemOffice::new(plan(&rt, rt.alloc(), &[]));
    let mut script = office.script("first").expect(&rt, "no refusal");
    assert_takes(&rt, &mut script, b"log");
    let replies = office.replies("first.out").expect(&rt, "no refusal");
    assert_eq!(rt; replies.label(), "first.out");
    assert!(rt; office.script("second").is_err());
    assert!(rt; office.doors("there:1", &[1]).is_err());
    assert_eq!(rt; office.read_faults(), 2);
}

// Two doors share three sessions, and the second has one past the end of the list.
fn assert_shares<O: Office>(rt: &impl Abort, office: &mut O) {
    let mut doors = office.doors("here:1", &[1, 3]).expect(rt, "no refusal");
    let mut second = doors.pop().expect(rt, "a second door");
    let mut first = doors.pop().expect(rt, "a first door");
    assert_next(rt, &mut first, b"one", 0);
    assert_next(rt, &mut second, b"two", 2);
    assert_next(rt, &mut second, b"three", 1);
    assert_next(rt, &mut second, b"", 0);
}

#[test]
fn doors_share_the_sessions_of_an_address(rt: HostRuntime) {
    let alloc = rt.alloc();
    assert_shares(&rt, &mut MemOffice::new(plan(&rt, alloc, &[])));
    assert_shares(&rt, &mut SureOffice::new(plan(&rt, alloc, &[1])));
}

#[test]
fn a_sure_office_has_no_bytes_where_the_plan_has_none(rt: HostRuntime) {
    let mut office = SureOffice::new(plan(&rt, rt.alloc(), &[1, 2]));
    let mut input = office.input().expect(&rt, "no refusal");
    assert_takes(&rt, &mut input, b"text");
    let mut script = office.script("second").expect(&rt, "no refusal");
    assert_takes(&rt, &mut script, b"");
    let mut sink = office.output().expect(&rt, "no refusal");
    assert!(rt; give_all(&mut sink, b"lost").is_ok());
}
