use crate::tests::check_text;
use crate::tests::payments_job::{AFTER_4_AND_8, inputs};
use flow_model::Setup;
use jobs::worker_count;
use std::alloc::Global;
use stream_save::{StreamSave, StreamSaveFault, read_stream, stream_text};
use tuple_trace::Bytes;

/// What is saved of a stream of the payments after row 8, with a third request to come.
const SAVE: &str = "\
fries,stream,8,2,3,120,960
wait,1,4
wait,2,8
tally,0,dee,1
tally,1,ann,1
tally,1,gus,1
";

fn has_numbers(save: &StreamSave) -> bool {
    save.start.row == 8
        && save.start.turned == 2
        && save.read == 3
        && save.waits.as_slice() == [4, 8].as_slice()
        && save.alerts == 120
        && save.audit == 960
}

/// The text of a savepoint, if it has one state for each worker.
fn text_of(alloc: Global, setup: &Setup, save: &StreamSave) -> Option<Bytes> {
    if save.start.states.len() as u64 != worker_count(&setup.job) {
        return None;
    }
    match stream_text(alloc, &setup.job, save) {
        Ok(text) => Some(text),
        Err(_) => None,
    }
}

/// The text of what the text tells. `None` if it tells other numbers.
fn read_again(alloc: Global) -> Option<Bytes> {
    let setup = inputs(AFTER_4_AND_8).setup(alloc)?;
    saved_again(alloc, &setup)
}

fn saved_again(alloc: Global, setup: &Setup) -> Option<Bytes> {
    match read_stream(alloc, setup, SAVE.as_bytes()) {
        Ok(save) if has_numbers(&save) => text_of(alloc, setup, &save),
        _ => None,
    }
}

#[test]
fn a_stream_is_read_again(rt: HostRuntime) {
    let text = read_again(rt.alloc()).expect(&rt, "the numbers");
    check_text(&rt, text.as_slice(), SAVE);
}

fn fault_of(alloc: Global, text: &str) -> Option<StreamSaveFault> {
    let setup = inputs(AFTER_4_AND_8).setup(alloc)?;
    read_stream(alloc, &setup, text.as_bytes()).err()
}

const REFUSED: [(&str, StreamSaveFault); 8] = [
    ("", StreamSaveFault::Shape(0)),
    ("fries,stream,8,2,3,120\n", StreamSaveFault::Shape(0)),
    (
        "fries,stream,8,2,3,120,960\nwait,1,9\ntally,0,dee,1\n",
        StreamSaveFault::Shape(2),
    ),
    (
        "fries,stream,8,1,3,120,960\nwait,1,9\nwait,2,8\n",
        StreamSaveFault::Shape(2),
    ),
    (
        "fries,stream,8,2,3,120,960\nwait,1,4\nwait,2,3\nreview,0,dee,1\n",
        StreamSaveFault::Count(2),
    ),
    (
        "fries,stream,8,2,3,120,960\nwait,1,4\nwait,2,9\n",
        StreamSaveFault::Count(2),
    ),
    (
        "fries,stream,8,1,3,120,960\nwait,1,4\nreview,0,dee,1\n",
        StreamSaveFault::State(2),
    ),
    (
        "fries,stream,8,1,3,120,960\nwait,1,4\ntally,1,gus,1\ntally,1,ann,1\n",
        StreamSaveFault::State(3),
    ),
];

#[test]
fn refused_streams(rt: HostRuntime) {
    for (text, fault) in REFUSED {
        assert_eq!(rt; fault_of(rt.alloc(), text), Some(fault), "{text}");
    }
}

const WORDS: [(StreamSaveFault, &str); 7] = [
    (StreamSaveFault::Shape(2), "S1 record 2"),
    (StreamSaveFault::Past(11), "S2 rows 11"),
    (StreamSaveFault::Count(2), "S3 record 2"),
    (StreamSaveFault::State(3), "S4 record 3"),
    (StreamSaveFault::Alerts(120), "S5 alerts 120"),
    (StreamSaveFault::Audit(960), "S5 audit 960"),
    (StreamSaveFault::NoMemory, "memory"),
];

#[test]
fn faults_of_streams(rt: HostRuntime) {
    for (fault, words) in WORDS {
        let said = format!(in rt.alloc(); "{fault}").expect(&rt, "memory");
        check_text(&rt, said.as_bytes(), words);
    }
}
