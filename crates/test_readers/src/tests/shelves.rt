// Shelves and sinks in memory and of the system.
ghost use Rattle.std.specs.Prelude.{◌≡◌, None};
ghost use Rattle.payments.specs.Memory.{draft_of};

use super::fixtures::check;
use crate::tests::check_text;
use payments::{
    Calls, HostFault, HostShelf, MemoryShelf, MemorySink, Shelf, ShelfFault, Sink, SinkFault,
    StdOut, store, store_parts, write_all,
};
use std::fs;
use std::process::Abort;
use std::rt::Files;
use tuple_trace::{Bytes, Word};

pub fn word(rt: &(impl AllocGlobal + Abort), name: &str) -> Word {
    Word::from_string(name.to_string(rt.alloc()).expect(rt, "memory"))
}

/// Checks that there is a file, which holds this text.
pub fn check_file(rt: &impl Abort, file: Option<&Bytes>, text: &str) {
    check_text(rt, file.expect(rt, "a file").as_slice(), text);
}

/// Checks that a read of at most `limit` bytes answers this text.
pub fn check_read<S: Shelf>(
    rt: &(impl AllocGlobal + Abort),
    shelf: &mut S,
    name: &Word,
    limit: u64,
    text: &str,
)
    ensures draft { (S.state shelf.new).draft ≡ (S.state shelf.old).draft }
{
    let bytes = shelf.read_all(rt.alloc(), name, limit).expect(rt, "a read");
    check_text(rt, bytes.as_slice(), text);
}

/// Checks that a read of at most `limit` bytes is refused for this fault.
pub fn check_refused<S: Shelf>(
    rt: &(impl AllocGlobal + Abort),
    shelf: &mut S,
    name: &Word,
    limit: u64,
    why: ShelfFault,
) {
    let fault = match shelf.read_all(rt.alloc(), name, limit) {
        Ok(_) => None,
        Err(fault) => Some(fault),
    };
    check(rt, fault, Some(why));
}

/// Checks how many reads and writes of a shelf have failed, and the file of the latest failure.
pub fn check_failed(rt: &impl Abort, shelf: &MemoryShelf, faults: (u64, u64), name: &str) {
    check(rt, (shelf.read_faults(), shelf.write_faults()), faults);
    let failed = shelf.failed().expect(rt, "a failure");
    check_text(rt, failed.as_str().as_bytes(), name);
}

/// A shelf that takes at most `most` bytes at a time, and fails at these calls.
pub fn shelf_of(rt: &(impl AllocGlobal + Abort), most: u64, calls: &[u64]) -> MemoryShelf
    ensures { draft_of result ≡ None }
{
    let calls = Calls::from_slice(rt.alloc(), calls).expect(rt, "memory");
    MemoryShelf::new(rt.alloc(), most, calls)
}

/// Puts a file with this text.
fn put(rt: &(impl AllocGlobal + Abort), shelf: &mut MemoryShelf, name: &str, text: &str) {
    let bytes = Bytes::from_slice(rt.alloc(), text.as_bytes()).expect(rt, "memory");
    shelf.put(word(rt, name), bytes).expect(rt, "memory");
}

const HEADER: &str = "sink,row,account,merchant,amount,tags\n";

fn three_reads(
    rt: &(impl AllocGlobal + Abort),
    shelf: &mut MemoryShelf,
    pay: &Word,
    alerts: &Word,
) {
    check_read(rt, shelf, pay, 7, "source\n");
    check_refused(rt, shelf, pay, 6, ShelfFault::Long);
    check_refused(rt, shelf, alerts, 6, ShelfFault::Failed);
    check_failed(rt, shelf, (1, 0), "alerts.csv");
}

// A text in pieces of 16 bytes, of which the second is refused, so that there is no file; and then
// all of it.
fn two_stores(rt: &impl Abort, shelf: &mut MemoryShelf, alerts: &Word) {
    check(
        rt,
        store(shelf, alerts, HEADER.as_bytes()),
        Err(ShelfFault::Failed),
    );
    check(rt, shelf.get(alerts).is_none(), true);
    check_failed(rt, shelf, (1, 1), "alerts.csv");
    check(rt, store(shelf, alerts, HEADER.as_bytes()), Ok(()));
    check_file(rt, shelf.get(alerts), HEADER);
}

// The shelf takes 16 bytes at a time, fails at one call, and has the file `pay.csv`.
#[test]
fn sixth_call_fails(rt: HostRuntime) {
    let pay = word(&rt, "pay.csv");
    let alerts = word(&rt, "alerts.csv");
    let mut shelf = shelf_of(&rt, 16, &[5]);
    put(&rt, &mut shelf, "pay.csv", "source\n");
    three_reads(&rt, &mut shelf, &pay, &alerts);
    two_stores(&rt, &mut shelf, &alerts);
}

// What storing a text of three pieces of 16 bytes over another one answers and leaves if this call
// fails. Call 0 begins it, calls 1 to 3 append, and call 4 keeps it.
fn stored(call: u64) -> (Result<(), ShelfFault>, &'static str) {
    if call < 5 {
        (Err(ShelfFault::Failed), "old\n")
    } else {
        (Ok(()), HEADER)
    }
}

fn check_store(rt: &(impl AllocGlobal + Abort), alerts: &Word, call: u64) {
    let mut shelf = shelf_of(rt, 16, &[call]);
    put(rt, &mut shelf, "alerts.csv", "old\n");
    let (answer, text) = stored(call);
    check(rt, store(&mut shelf, alerts, HEADER.as_bytes()), answer);
    check_file(rt, shelf.get(alerts), text);
}

#[test]
fn a_file_is_as_before_or_whole(rt: HostRuntime) {
    let alerts = word(&rt, "alerts.csv");
    for call in 0..6 {
        check_store(&rt, &alerts, call);
    }
}

fn bytes(rt: &(impl AllocGlobal + Abort), text: &[u8]) -> Bytes {
    Bytes::from_slice(rt.alloc(), text).expect(rt, "memory")
}

// The same text in three parts, of which the second is empty. Calls 1 and 2 append the others, and
// call 3 keeps the draft.
fn check_parts(rt: &(impl AllocGlobal + Abort), alerts: &Word, call: u64) {
    let mut shelf = shelf_of(rt, 64, &[call]);
    put(rt, &mut shelf, "alerts.csv", "old\n");
    let (first, last) = HEADER.as_bytes().split_at(8);
    let parts = [bytes(rt, first), bytes(rt, b""), bytes(rt, last)];
    let (answer, text) = stored(if call < 4 { call } else { 5 });
    check(rt, store_parts(&mut shelf, alerts, &parts), answer);
    check_file(rt, shelf.get(alerts), text);
}

#[test]
fn a_file_in_parts_is_as_before_or_whole(rt: HostRuntime) {
    let alerts = word(&rt, "alerts.csv");
    for call in 0..5 {
        check_parts(&rt, &alerts, call);
    }
}

#[test]
fn second_write_fails(rt: HostRuntime) {
    let refused = Calls::from_slice(rt.alloc(), &[1]).expect(&rt, "memory");
    let mut out = MemorySink::new(rt.alloc(), refused);
    check(&rt, write_all(&mut out, b"rows 1\n"), Ok(()));
    check(&rt, write_all(&mut out, b""), Ok(()));
    check(
        &rt,
        write_all(&mut out, b"rows 2\n"),
        Err(SinkFault::Failed),
    );
    check(&rt, out.write(b"end\n"), Ok(4));
    check_text(&rt, out.written(), "rows 1\nend\n");
    check(&rt, out.faults(), 1);
}

// An old file, which is longer, and a new one in its place. Then reads of files that aren't there.
fn check_host<R: Files + Print + Drop>(rt: &(impl AllocGlobal + Abort), shelf: &mut HostShelf<R>) {
    let name = word(rt, "host_shelf.tmp");
    check(
        rt,
        store(shelf, &name, b"an old one, which is longer\n"),
        Ok(()),
    );
    check(rt, store(shelf, &name, b"source\n"), Ok(()));
    check_read(rt, shelf, &name, 7, "source\n");
    check_refused(rt, shelf, &name, 6, ShelfFault::Long);
    check_refused(
        rt,
        shelf,
        &word(rt, "no_such_file.tmp"),
        6,
        ShelfFault::Failed,
    );
    check(
        rt,
        shelf.create(&word(rt, "no_such_folder/file")),
        Err(ShelfFault::Failed),
    );
    check(rt, shelf.why(), Some(HostFault::Missing));
}

// Removes a file of the system, and checks whether it was there.
pub fn check_removed(rt: &(impl Files + Abort), name: &str, was_there: bool) {
    check(rt, fs::remove_file(rt, name).is_ok(), was_there);
}

#[test]
fn a_draft_is_given_up_for_the_next(rt: HostRuntime) {
    let mut shelf = HostShelf::new(rt, rt.alloc());
    check(&rt, shelf.create(&word(&rt, "first.tmp")), Ok(()));
    check(&rt, shelf.create(&word(&rt, "second.tmp")), Ok(()));
    drop(shelf);
    check_removed(&rt, ".first.tmp.fries-draft", false);
    check_removed(&rt, ".second.tmp.fries-draft", true);
}

#[test]
fn files_and_output_of_the_system(rt: HostRuntime) {
    check_host(&rt, &mut HostShelf::new(rt, rt.alloc()));
    check_removed(&rt, ".host_shelf.tmp.fries-draft", false);
    check_removed(&rt, "host_shelf.tmp", true);
    check(&rt, write_all(&mut StdOut::new(rt), b"written\n"), Ok(()));
}
