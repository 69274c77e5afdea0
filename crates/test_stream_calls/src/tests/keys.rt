//! Streams that count many keys.
use crate::tests::left::{Case, bytes_of, empty, first_loss, left_after};
use payments::MemoryShelf;
use std::alloc::Global;
use std::str;
use test_texts::{COUNTER, times};
use tuple_trace::NoMemory;

/// How many keys there are. They come in turn.
const KEYS: u64 = 40;

/// How many rows there are: each key comes twice.
const ROWS: u64 = 80;

/// Alerts of the first and the last key.
const ALERTS: [&str; 4] = ["out,1,k0,1", "out,40,k39,1", "out,41,k0,2", "out,80,k39,2"];

/// The payments up to a row.
fn payments_to(alloc: Global, last: u64) -> Result<String, NoMemory> {
    let mut text = String::from_str(alloc, "source,account\n")?;
    for row in 0..last {
        let line = format!(in alloc; "card,k{}\n", row % KEYS)?;
        text.push_str(line.as_str())?;
    }
    Ok(text)
}

/// A stream of these payments. A part has at most eight rows, and a savepoint follows once 20 rows
/// were run.
fn counted(payments: &str) -> Case<'_> {
    Case {
        job: COUNTER,
        requests: "",
        payments,
        most: 64,
        step: 256,
        begin: "stream job.toml requests.toml alerts.csv audit.csv --save save.csv --every 20",
        resume: "stream job.toml requests.toml alerts.csv audit.csv --save save.csv --every 20 \
            --resume",
    }
}

/// Whether each row has one alert, which counts the rows with its key up to it, and there is no
/// other.
fn tells_each(alloc: Global, alerts: &str) -> Result<bool, NoMemory> {
    let mut well = alerts.lines().count() as u64 == ROWS + 1;
    for row in 0..ROWS {
        let line = format!(in alloc; "out,{},k{},{}", row + 1, row % KEYS, row / KEYS + 1)?;
        well &= times(alerts, line.as_str()) == 1;
    }
    Ok(well)
}

fn are_right(alloc: Global, shelf: &MemoryShelf) -> bool {
    let alerts = str::from_utf8(bytes_of(alloc, shelf, "alerts.csv")).unwrap_or("");
    ALERTS.iter().all(|line| times(alerts, *line) == 1) && tells_each(alloc, alerts) == Ok(true)
}

/// A stream ends after row 50, and another one goes on. Rows 41 to 50 are the second of their keys
/// before the savepoint, and rows 51 to 80 after it.
#[test]
fn many_keys(rt: HostRuntime) {
    let text = payments_to(rt.alloc(), 50).expect(&rt, "memory");
    let from = left_after(&rt, rt.alloc(), &counted(text.as_str()), &empty(rt.alloc()));
    let from = from.expect(&rt, "memory");
    let text = payments_to(rt.alloc(), ROWS).expect(&rt, "memory");
    let left = left_after(&rt, rt.alloc(), &counted(text.as_str()), &from);
    let left = left.expect(&rt, "memory");
    assert!(rt; are_right(rt.alloc(), &left));
}

/// A stream is killed at each fifth call. Each row is counted once, also one that was counted after
/// the savepoint and before the kill.
#[test]
fn many_keys_killed(rt: HostRuntime) {
    let text = payments_to(rt.alloc(), ROWS).expect(&rt, "memory");
    let case = counted(text.as_str());
    let nothing = empty(rt.alloc());
    let wanted = left_after(&rt, rt.alloc(), &case, &nothing).expect(&rt, "memory");
    assert!(rt; are_right(rt.alloc(), &wanted));
    assert_eq!(rt;
        first_loss(&rt, rt.alloc(), &case, &nothing, 5, &wanted),
        None
    );
}
