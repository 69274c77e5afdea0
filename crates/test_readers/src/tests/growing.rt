// Files that grow in their places, and are cut there.
ghost use Rattle.std.specs.Prelude.{◌≡◌, None};
ghost use Rattle.payments.specs.Host.{host_draft_of};

use super::fixtures::check;
use super::shelves::{check_failed, check_file, check_read, check_removed, shelf_of, word};
use payments::{GrowingShelf, HostFault, HostShelf, ShelfFault, SureShelf, extend_all, store};
use std::process::Abort;
use std::rt::Files;
use tuple_trace::Word;

// A file that isn't there has no byte. It is begun by a header, and grows by a row.
fn grows<S: GrowingShelf>(rt: &impl Abort, shelf: &mut S, name: &Word)
    requires closed { (S.state shelf.old).draft ≡ None }
    ensures closed { (S.state shelf.new).draft ≡ None }
{
    check(rt, shelf.cut(name, 1), Ok(false));
    check(rt, extend_all(shelf, name, b"row,account\n"), Ok(()));
    check(rt, extend_all(shelf, name, b""), Ok(()));
    check(rt, extend_all(shelf, name, b"1,ann\n"), Ok(()));
}

// A file of 18 bytes is cut to the first 12.
fn is_cut<S: GrowingShelf>(rt: &impl Abort, shelf: &mut S, name: &Word)
    requires closed { (S.state shelf.old).draft ≡ None }
    ensures closed { (S.state shelf.new).draft ≡ None }
{
    check(rt, shelf.cut(name, 19), Ok(false));
    check(rt, shelf.cut(name, 18), Ok(true));
    check(rt, shelf.cut(name, 12), Ok(true));
    check(rt, shelf.cut(name, 13), Ok(false));
}

// Checks the text while it stands whole, its first line once it is cut, and a file that a cut made:
// one that isn't there is cut to no bytes, and grows by 3.
fn check_growth<S: GrowingShelf>(
    rt: &(impl AllocGlobal + Abort),
    shelf: &mut S,
    name: &str,
    new: &str,
)
    requires closed { (S.state shelf.old).draft ≡ None }
{
    let (name, new) = (word(rt, name), word(rt, new));
    grows(rt, shelf, &name);
    check_read(rt, shelf, &name, 18, "row,account\n1,ann\n");
    is_cut(rt, shelf, &name);
    check_read(rt, shelf, &name, 18, "row,account\n");
    check(rt, shelf.cut(&new, 0), Ok(true));
    check(rt, shelf.extend(&new, b"row"), Ok(3));
    check_read(rt, shelf, &new, 3, "row");
}

fn check_sure(rt: &(impl AllocGlobal + Abort)) {
    let mut shelf = SureShelf::new(rt.alloc(), 4);
    check(rt, store(&mut shelf, &word(rt, "audit.csv"), b""), Ok(()));
    check_growth(rt, &mut shelf, "audit.csv", "alerts.csv");
}

#[test]
fn files_in_memory_grow(rt: HostRuntime) {
    check_growth(&rt, &mut shelf_of(&rt, 4, &[]), "audit.csv", "alerts.csv");
    check_sure(&rt);
}

/// A text of three pieces of 16 bytes.
const TEXT: &str = "sink,row,account,merchant,amount,tags\n";

/// What a file holds if a write of 16 bytes at most fails, by the number of the write.
static LEFT: &[(u64, &str)] = &[
    (0, ""),
    (1, "sink,row,account"),
    (2, "sink,row,account,merchant,amount"),
];

// Checks that the text stands up to the call that fails.
fn check_prefix(rt: &(impl AllocGlobal + Abort), name: &Word, call: u64, text: &str) {
    let mut shelf = shelf_of(rt, 16, &[call.saturating_add(1)]);
    check(rt, shelf.cut(name, 0), Ok(true));
    let grown = extend_all(&mut shelf, name, TEXT.as_bytes());
    check(rt, grown, Err(ShelfFault::Failed));
    check_file(rt, shelf.get(name), text);
    check_failed(rt, &shelf, (0, 1), "alerts.csv");
}

// Checks that all stands if the call after the last write is to fail.
fn check_whole(rt: &(impl AllocGlobal + Abort), name: &Word) {
    let mut shelf = shelf_of(rt, 16, &[4]);
    check(rt, shelf.cut(name, 0), Ok(true));
    check(rt, extend_all(&mut shelf, name, TEXT.as_bytes()), Ok(()));
    check_file(rt, shelf.get(name), TEXT);
}

#[test]
fn a_write_that_fails_leaves_a_proper_prefix(rt: HostRuntime) {
    let name = word(&rt, "alerts.csv");
    for (call, text) in LEFT {
        check_prefix(&rt, &name, *call, text);
    }
    check_whole(&rt, &name);
}

// A cut that fails, and one of a short file that isn't there, change nothing.
#[test]
fn a_cut_that_fails_makes_no_file(rt: HostRuntime) {
    let name = word(&rt, "alerts.csv");
    let mut shelf = shelf_of(&rt, 4, &[0]);
    check(&rt, shelf.cut(&name, 0), Err(ShelfFault::Failed));
    check(&rt, shelf.cut(&name, 1), Ok(false));
    check(&rt, shelf.get(&name).is_none(), true);
    check_failed(&rt, &shelf, (0, 1), "alerts.csv");
}

// A device takes each piece, and holds no bytes. A file in a folder that isn't there is refused.
fn check_others<R: Files + Print + Drop>(rt: &(impl AllocGlobal + Abort), shelf: &mut HostShelf<R>)
    requires closed { host_draft_of shelf.old ≡ None }
{
    let device = word(rt, "/dev/null");
    let nowhere = word(rt, "no_such_folder/file");
    check(rt, shelf.extend(&device, b"row"), Ok(3));
    check(rt, shelf.cut(&device, 0), Ok(true));
    check(rt, shelf.cut(&device, 1), Ok(false));
    check(rt, shelf.extend(&nowhere, b"row"), Err(ShelfFault::Failed));
    check(rt, shelf.cut(&nowhere, 0), Err(ShelfFault::Failed));
    check(rt, shelf.why(), Some(HostFault::Missing));
}

#[test]
fn files_of_the_system_grow(rt: HostRuntime) {
    let mut shelf = HostShelf::new(rt, rt.alloc());
    check_growth(&rt, &mut shelf, "grown.tmp", "made_by_a_cut.tmp");
    check_removed(&rt, "grown.tmp", true);
    check_removed(&rt, "made_by_a_cut.tmp", true);
    check_others(&rt, &mut HostShelf::new(rt, rt.alloc()));
}
