// Tests of live_control: requests that an operator releases.
use live_control::{Asks, Failed, MemoryAsks, StdIn, hear, line, meet};
use payments::Calls;
use std::alloc::Global;
use tuple_trace::{Bytes, NoMemory};

// What is heard of these bytes if these calls fail: releases, whether the input failed, how many
// bytes are left, and what meets.
fn heard_of(
    alloc: Global,
    bytes: &[u8],
    failing: &[u64],
    most: u32,
) -> Result<(u32, bool, usize, (u64, u64)), NoMemory> {
    let bytes = Bytes::from_slice(alloc, bytes)?;
    let failing = Calls::from_slice(alloc, failing)?;
    let mut asks = MemoryAsks::new(bytes, failing);
    let (mut teller, inbox) = line(alloc)?;
    let heard = hear(&mut asks, &mut teller, most.min(64));
    let left = asks.left().len();
    Ok((heard.releases, heard.failed, left, meet(teller, inbox)))
}

#[test]
fn hear_one_line(rt: HostRuntime) {
    let found = heard_of(rt.alloc(), b"x\n\n", &[], 1);
    assert_eq!(rt; found, Ok((1, false, 1, (1, 0))));
}

// (bytes, failing calls, most, releases, failed, bytes left)
const HEARD: [(&str, &[u64], u32, u32, bool, usize); 6] = [
    ("", &[], 2, 0, false, 0),
    ("\n", &[], 0, 0, false, 1),
    ("\nno\n", &[], 2, 2, false, 0),
    ("a\nb", &[], 2, 1, false, 0),
    ("\n\n", &[0], 2, 0, true, 2),
    ("\n\n", &[1], 2, 1, true, 1),
];

#[test]
fn hear_to_the_end_or_a_failure(rt: HostRuntime) {
    for (bytes, failing, most, releases, failed, left) in HEARD {
        let found = heard_of(rt.alloc(), bytes.as_bytes(), failing, most);
        let told = releases as u64;
        assert_eq!(rt; found, Ok((releases, failed, left, (told, 0))));
    }
}

// Whether an inbox sees each release once it is told.
fn sees_releases(alloc: Global) -> Result<bool, NoMemory> {
    let (mut teller, mut inbox) = line(alloc)?;
    let mut well = inbox.last_heard() == 0 && inbox.heard() == 0;
    teller.tell();
    well &= inbox.last_heard() == 0 && inbox.heard() == 1;
    teller.tell();
    well &= inbox.heard() == 2 && inbox.last_heard() == 2;
    Ok(well && meet(teller, inbox) == (2, 2))
}

#[test]
fn releases_are_seen_once_told(rt: HostRuntime) {
    assert!(rt; matches!(sees_releases(rt.alloc()), Ok(true)));
}

// Whether an input gives these answers, one after another.
fn gives<A: Asks>(asks: &mut A, answers: &[Result<Option<u8>, Failed>]) -> bool {
    let mut well = true;
    for answer in answers {
        well &= asks.next() == *answer;
    }
    well
}

#[test]
fn standard_input_gives_its_bytes(rt: HostRuntime) {
    let mut input = StdIn::new(b"x\n".as_slice());
    let given = gives(&mut input, &[Ok(Some(b'x')), Ok(Some(b'\n')), Ok(None)]);
    assert!(rt; given);
}

const FAILING: [Result<Option<u8>, Failed>; 5] = [
    Err(Failed),
    Ok(Some(b'a')),
    Err(Failed),
    Ok(Some(b'b')),
    Ok(None),
];

// Whether the first call fails and the third, and the others give the bytes.
fn fails_twice(alloc: Global) -> Result<bool, NoMemory> {
    let bytes = Bytes::from_slice(alloc, b"ab")?;
    let failing = Calls::from_slice(alloc, &[0, 2])?;
    let mut asks = MemoryAsks::new(bytes, failing);
    Ok(gives(&mut asks, &FAILING) && asks.faults() == 2)
}

#[test]
fn failing_asks(rt: HostRuntime) {
    assert!(rt; matches!(fails_twice(rt.alloc()), Ok(true)));
}
