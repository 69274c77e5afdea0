use crate::tests::check_text;
use crate::tests::payments_job::{AFTER_4_AND_8, FIRST_8, inputs};
use flow_model::{RunRecord, Setup, Start};
use jobs::worker_count;
use savepoint::{SaveFault, first_of};
use savepoint_file::{issued_up_to, read_save, save_text, start_of};
use std::alloc::Global;
use test_runs::{rows_of, run_of};
use test_texts::SAVE_OF_8;
use tuple_trace::Bytes;

/// The run of the first eight rows, with the requests up to there.
fn first_run(alloc: Global) -> Option<Box<RunRecord>> {
    let setup = first_setup(alloc)?;
    let rows = rows_of(alloc, &setup.job, FIRST_8)?;
    run_of(alloc, setup, &rows)
}

fn first_setup(alloc: Global) -> Option<Box<Setup>> {
    let setup = inputs(AFTER_4_AND_8).setup(alloc)?;
    let issued = issued_up_to(&setup, 8, 10);
    if issued > setup.request_count() as u64 {
        return None;
    }
    Box::new(alloc, first_of(Box::into_inner(setup), issued)).ok()
}

/// The text of a start, if it has one state for each worker.
fn text_of(alloc: Global, setup: &Setup, start: &Start) -> Option<Bytes> {
    if start.states.len() as u64 != worker_count(&setup.job) {
        return None;
    }
    match save_text(alloc, &setup.job, start) {
        Ok(text) => Some(text),
        Err(_) => None,
    }
}

fn saved(alloc: Global) -> Option<Bytes> {
    let ran = first_run(alloc)?;
    saved_of(alloc, &ran)
}

fn saved_of(alloc: Global, ran: &RunRecord) -> Option<Bytes> {
    let Ok(start) = start_of(alloc, ran, 8) else {
        return None;
    };
    text_of(alloc, &ran.setup, &start)
}

#[test]
fn eight_payments_are_saved(rt: HostRuntime) {
    let text = saved(rt.alloc()).expect(&rt, "a savepoint");
    check_text(&rt, text.as_slice(), SAVE_OF_8);
}

/// The text of what the text tells.
fn read_again(alloc: Global) -> Option<Bytes> {
    let setup = inputs(AFTER_4_AND_8).setup(alloc)?;
    saved_again(alloc, &setup)
}

fn saved_again(alloc: Global, setup: &Setup) -> Option<Bytes> {
    let Ok(start) = read_save(alloc, setup, 10, SAVE_OF_8.as_bytes()) else {
        return None;
    };
    text_of(alloc, setup, &start)
}

#[test]
fn a_savepoint_is_read_again(rt: HostRuntime) {
    let text = read_again(rt.alloc()).expect(&rt, "a savepoint");
    check_text(&rt, text.as_slice(), SAVE_OF_8);
}

fn fault_of(alloc: Global, text: &str) -> Option<SaveFault> {
    let setup = inputs(AFTER_4_AND_8).setup(alloc)?;
    read_save(alloc, &setup, 10, text.as_bytes()).err()
}

const REFUSED: [(&str, SaveFault); 6] = [
    ("fries,save,8,1\ntally,0,dee,1\n", SaveFault::Count(2)),
    ("fries,save,11,2\ntally,0,dee,1\n", SaveFault::Past(11)),
    (
        "fries,save,8,2\ntally,0,dee,1\ntally,1,gus,1\ntally,1,ann,1\n",
        SaveFault::State(3),
    ),
    ("fries,save,8,2\nreview,0,dee,1\n", SaveFault::State(1)),
    ("fries,save,11,1\ntally,0,dee\n", SaveFault::Shape(1)),
    ("", SaveFault::Shape(0)),
];

#[test]
fn refused_savepoints(rt: HostRuntime) {
    for (text, fault) in REFUSED {
        assert_eq!(rt; fault_of(rt.alloc(), text), Some(fault), "{text}");
    }
}
