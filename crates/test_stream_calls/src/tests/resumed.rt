//! A stream that stopped and goes on.
use crate::tests::cuts::shelf_with;
use crate::tests::texts::{LATE_ALERTS, PAYMENTS};
use crate::tests::{RESUMING, SAVING, check_alerts, check_said, say, tap_of, word};
use payments::store;
use std::process::Abort;
use std::sync::Wait;
use std::thread::Threads;
use test_texts::SPACED_AFTER_2;

/// The first three of the four payments.
const THREE: &str =
    "source,account,amount\ncard,a,100.00\ncard,b,99.99\ncard,\"c\"\",\n\",120.00\n";

/// A stream goes on with a request that asks for row 2 and was appended after row 3. Row 3 had met
/// the old filter, and row 4 meets the new one. `None` if memory runs out.
fn go_on_late<R>(rt: &R) -> Option<()>
where
    R: AllocGlobal + Abort + Threads + Wait + Copy + Send + Sync + 'static,
{
    let alloc = rt.alloc();
    let mut shelf = shelf_with(alloc, "")?;
    let mut tap = tap_of(alloc, THREE, 1)?;
    let first = say(rt, alloc, SAVING, &mut shelf, &mut tap)?;
    store(
        &mut shelf,
        &word(alloc, "requests.toml").ok()?,
        SPACED_AFTER_2.as_bytes(),
    )
    .ok()?;
    let mut tap = tap_of(alloc, PAYMENTS, 1)?;
    let second = say(rt, alloc, RESUMING, &mut shelf, &mut tap)?;
    check_said(rt, &first, 0, "rows 3 alerts 2 requests 0 refused 0\n");
    check_said(rt, &second, 0, "rows 1 alerts 1 requests 1 refused 0\n");
    check_alerts(rt, &shelf, LATE_ALERTS);
    Some(())
}

#[test]
fn late_request(rt: HostRuntime) {
    go_on_late(&rt).expect(&rt, "memory");
}
