//! The records of both parts, joined to one.

use crate::tests::plain::{Texts, inputs_of, texts_of};
use crate::tests::texts::TEN;
use crate::tests::{Around, record_of, shelf_of};
use flow_model::{RunRecord, Setup};
use payments::MemoryShelf;
use std::alloc::Global;
use std::str;
use std::sync::Wait;
use std::thread::Threads;
use test_texts::{PAYMENTS_ALERTS, is_steady_audit};
use tuple_trace::NoMemory;

/// Both commands, on one thread and on four.
const BOTH: [[&str; 2]; 2] = [
    [
        "save job requests payments alerts audit save 8",
        "resume job requests payments save alerts audit",
    ],
    [
        "save job requests payments alerts audit save 8 --threads 4",
        "resume job requests payments save alerts audit --threads 4",
    ],
];

/// How many records the audit of ten payments has, with its header and without the refused request.
const RECORDS: usize = 70;

fn shelf(alloc: Global) -> Result<MemoryShelf, NoMemory> {
    shelf_of(
        alloc,
        Around {
            input: TEN,
            before: ["", "", ""],
            failing: None,
        },
    )
}

/// The records of both commands, of which the second reads what the first saved.
#[derive(Drop)]
struct Both {
    first: Box<RunRecord>,
    second: Box<RunRecord>,
}

fn records_of<R>(rt: &R, alloc: Global, lines: [&str; 2]) -> Option<Both>
where
    R: Threads + Wait + Copy + Send + Sync + 'static,
{
    let mut shelf = shelf(alloc).ok()?;
    let first = record_of(rt, alloc, lines[0], &mut shelf)?;
    let second = record_of(rt, alloc, lines[1], &mut shelf)?;
    Some(Both { first, second })
}

fn joined(alloc: Global, setup: Box<Setup>, both: Both) -> Option<Box<RunRecord>> {
    let Both { first, second } = both;
    let setup = Box::into_inner(setup);
    match savepoint::join(
        alloc,
        setup,
        Box::into_inner(first),
        Box::into_inner(second),
    ) {
        Ok(ran) => Box::new(alloc, ran).ok(),
        Err(_) => None,
    }
}

fn is_audit(audit: &str) -> bool {
    audit.lines().count() == RECORDS
        && is_steady_audit(audit, "entry,node,worker,lane,number,extra\n")
}

fn are_whole(texts: &Texts) -> bool {
    match str::from_utf8(texts.audit.as_slice()) {
        Ok(audit) => is_audit(audit) && texts.alerts.as_slice() == PAYMENTS_ALERTS.as_bytes(),
        Err(_) => false,
    }
}

fn is_whole(alloc: Global, ran: &RunRecord) -> bool {
    match texts_of(alloc, ran) {
        Ok(texts) => are_whole(&texts),
        Err(_) => false,
    }
}

fn are_joined(alloc: Global, both: Both) -> bool {
    let Some(setup) = inputs_of(TEN).setup(alloc) else {
        return false;
    };
    match joined(alloc, setup, both) {
        Some(ran) => is_whole(alloc, &ran),
        None => false,
    }
}

fn is_joined<R>(rt: &R, alloc: Global, lines: [&str; 2]) -> bool
where
    R: Threads + Wait + Copy + Send + Sync + 'static,
{
    match records_of(rt, alloc, lines) {
        Some(both) => are_joined(alloc, both),
        None => false,
    }
}

#[test]
fn join(rt: HostRuntime) {
    for lines in BOTH {
        assert!(rt; is_joined(&rt, rt.alloc(), lines));
    }
}
