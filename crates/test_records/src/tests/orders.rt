use crate::tests::check_text;
use crate::tests::payments_job::{AFTER_4, AFTER_4_AND_8, inputs};
use flow_replay::{RunRecord, Setup};
use jobs::Func;
use serial_order::{push_serial_line, serial, table_at};
use std::alloc::Global;
use std::process::Abort;
use test_runs::rows_of;
use test_texts::{AT_THE_FRONT, TEN_PAYMENTS};
use tuple_trace::{Bytes, NoMemory, Value};

/// The line of the run's order.
fn line_of(alloc: Global, ran: &RunRecord) -> Result<Bytes, NoMemory> {
    let rows = rows_of(alloc, &ran.setup.job, TEN_PAYMENTS).ok_or(NoMemory)?;
    let order = serial(alloc, ran, &rows)?;
    let mut line = Bytes::new(alloc);
    push_serial_line(alloc, &order, ran.setup.request_count(), &mut line)?;
    Ok(line)
}

fn line_with(alloc: Global, requests: &str) -> Option<Bytes> {
    let ran = inputs(requests).run(alloc)?;
    line_of(alloc, &ran).ok()
}

fn check_line(rt: &(impl AllocGlobal + Abort), requests: &str, wanted: &str) {
    let line = line_with(rt.alloc(), requests).expect(rt, "a line");
    check_text(rt, line.as_slice(), wanted);
}

#[test]
fn ordered_run(rt: HostRuntime) {
    check_line(&rt, AT_THE_FRONT, "serial 0 10\n");
}

#[test]
fn rows_around_their_requests(rt: HostRuntime) {
    check_line(&rt, AFTER_4_AND_8, "serial 4 4 2\n");
}

/// The number that a filter's one condition compares with.
fn threshold(func: Option<&Func>) -> Option<i64> {
    let Some(Func::Filter(conds)) = func else {
        return None;
    };
    match conds.as_slice() {
        [cond] => match cond.literal {
            Value::Num(number) => Some(number),
            Value::Text(_) => None,
        },
        _ => None,
    }
}

/// The thresholds of `big`, `hot` and `often` after the first `k` requests.
fn thresholds(alloc: Global, k: u64) -> Option<[Option<i64>; 3]> {
    let setup = inputs(AFTER_4).setup(alloc)?;
    thresholds_in(alloc, &setup, k)
}

fn thresholds_in(alloc: Global, setup: &Setup, k: u64) -> Option<[Option<i64>; 3]> {
    let Ok(table) = table_at(alloc, setup, k) else {
        return None;
    };
    let funcs = table.as_slice();
    Some([
        threshold(funcs.get(3)),
        threshold(funcs.get(4)),
        threshold(funcs.get(7)),
    ])
}

#[test]
fn functions_before_and_after_a_request(rt: HostRuntime) {
    let before = [Some(10000), Some(2), Some(3)];
    let after = [Some(5000), Some(3), Some(3)];
    assert_eq!(rt; thresholds(rt.alloc(), 0), Some(before));
    assert_eq!(rt; thresholds(rt.alloc(), 1), Some(after));
}
