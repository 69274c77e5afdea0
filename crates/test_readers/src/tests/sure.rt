// A shelf and a sink that never fail.
use super::fixtures::check;
use super::shelves::{check_file, check_read, check_refused, word};
use crate::tests::check_text;
use payments::{ShelfFault, Sink, SureShelf, SureSink, store, write_all};
use std::process::Abort;
use tuple_trace::Bytes;

// A shelf that takes 4 bytes at a time and has the file `pay.csv`.
fn shelf_with_payments(rt: &(impl AllocGlobal + Abort)) -> SureShelf {
    let mut shelf = SureShelf::new(rt.alloc(), 4);
    let bytes = Bytes::from_slice(rt.alloc(), b"source\n").expect(rt, "memory");
    shelf.put(word(rt, "pay.csv"), bytes).expect(rt, "memory");
    shelf
}

#[test]
fn a_sure_shelf_reads_what_is_not_there(rt: HostRuntime) {
    let pay = word(&rt, "pay.csv");
    let new = word(&rt, "alerts.csv");
    let mut shelf = shelf_with_payments(&rt);
    check_read(&rt, &mut shelf, &pay, 7, "source\n");
    check_refused(&rt, &mut shelf, &pay, 6, ShelfFault::Long);
    check_read(&rt, &mut shelf, &new, 6, "");
    check(&rt, store(&mut shelf, &new, b"sink,row"), Ok(()));
    check_file(&rt, shelf.get(&new), "sink,row");
    check_file(&rt, shelf.get(&pay), "source\n");
}

#[test]
fn a_sure_sink_takes_all(rt: HostRuntime) {
    let mut sink = SureSink::new(rt.alloc());
    check(&rt, write_all(&mut sink, b"rows 0 "), Ok(()));
    check(&rt, sink.write(b"alerts 0\n"), Ok(9));
    check_text(&rt, sink.written(), "rows 0 alerts 0\n");
}
