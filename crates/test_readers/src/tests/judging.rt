// Which requests are accepted, and why others aren't.
use super::change_cases::{self, Case, EARLIER, LATER, TWO_SPLITS};
use super::files::KINDS;
use super::fixtures::{check, job_in, requests_in, stream_requests_in};
use super::later_changes;
use jobs::{Func, Job};
use std::process::Abort;
use test_texts::{CHAIN, PAYMENTS_JOB, PAYMENTS_REQUESTS, ROOF};
use versions::{Book, Judged, QFault, Refused, Request, judge, judge_all, judge_within};

/// How many requests are accepted, and the first two that aren't.
type Fate = (usize, Option<Refused>, Option<Refused>);

fn fate_of(judged: &Judged) -> Fate {
    let refused = judged.refused.as_slice();
    let (first, second) = (refused.first().copied(), refused.get(1).copied());
    (judged.accepted.len(), first, second)
}

/// The fate of the requests of a file in pieces.
fn fate(rt: &(impl AllocGlobal + Abort), job: &str, requests: &[&str]) -> Fate {
    let job = job_in(rt, &[job]);
    let requests = requests_in(rt, &job, requests);
    fate_of(&judge_all(rt.alloc(), &job, &requests).expect(rt, "memory"))
}

/// The fate of the requests of a file if only these nodes may be splits. There may be as many as a
/// stream has.
fn fate_within(
    rt: &(impl AllocGlobal + Abort),
    job: &str,
    splits: Option<u64>,
    requests: &[&str],
) -> Fate {
    let job = job_in(rt, &[job]);
    let requests = stream_requests_in(rt, &job, requests);
    fate_of(&judge_within(rt.alloc(), &job, splits, &requests).expect(rt, "memory"))
}

/// The fault of a request of these changes, in a file of its own: none if it is accepted.
fn fault(rt: &(impl AllocGlobal + Abort), job: &str, changes: &str) -> Option<QFault> {
    let (_, refused, _) = fate(rt, job, &["[[request]]\nafter = 3\n", changes]);
    Some(refused?.fault)
}

fn check_changes(rt: &(impl AllocGlobal + Abort), job: &str, cases: &[Case]) {
    for (changes, want) in cases {
        assert_eq!(rt; fault(rt, job, changes), *want, "{changes}");
    }
}

const STALE: Option<Refused> = Some(Refused {
    place: 2,
    fault: QFault::Stale(1, 1),
});

const BACKWARDS: Option<Refused> = Some(Refused {
    place: 4,
    fault: QFault::Backwards(7),
});

#[test]
fn stale_request(rt: HostRuntime) {
    check(
        &rt,
        fate(&rt, KINDS, &[EARLIER, LATER]),
        (2, STALE, BACKWARDS),
    );
}

const LATE_1: Option<Refused> = Some(Refused {
    place: 1,
    fault: QFault::LateSplit(1),
});

const LATE_2: Option<Refused> = Some(Refused {
    place: 2,
    fault: QFault::LateSplit(1),
});

/// Masks, and the fate of two requests: the first makes node 1 a split, and the second node 2.
static MASKS: &[(Option<u64>, Fate)] = &[
    (None, (2, None, None)),
    (Some(0b0110), (2, None, None)),
    (Some(0b0010), (1, LATE_2, None)),
    (Some(0), (0, LATE_1, LATE_2)),
];

#[test]
fn splits_outside_the_mask(rt: HostRuntime) {
    for (splits, want) in MASKS {
        check(&rt, fate_within(&rt, ROOF, *splits, &[TWO_SPLITS]), *want);
    }
}

/// The first reading has two of the four requests, and knows no mask.
#[test]
fn judging_in_two_readings(rt: HostRuntime) {
    check(&rt, fate(&rt, KINDS, &[EARLIER]), (1, STALE, None));
    let both = fate_within(&rt, KINDS, Some(0), &[EARLIER, LATER]);
    check(&rt, both, (2, STALE, BACKWARDS));
}

#[test]
fn requests_of_the_payments(rt: HostRuntime) {
    let stale = Refused {
        place: 3,
        fault: QFault::Stale(1, 1),
    };
    check(
        &rt,
        fate(&rt, PAYMENTS_JOB, &[PAYMENTS_REQUESTS]),
        (2, Some(stale), None),
    );
}

#[test]
fn refused_changes(rt: HostRuntime) {
    check_changes(&rt, CHAIN, change_cases::OF_THE_CHAIN);
    check_changes(&rt, PAYMENTS_JOB, change_cases::OF_PAYMENTS);
    check_changes(&rt, KINDS, change_cases::OF_KINDS);
    check_changes(&rt, KINDS, later_changes::OF_KINDS);
}

#[test]
fn roof(rt: HostRuntime) {
    check_changes(&rt, ROOF, change_cases::OF_THE_ROOF);
}

/// Checks a book as it begins: node 3 counts by the first column, and the request comes too late
/// only if the latest accepted one has a later row.
fn check_book(rt: &impl Abort, book: &Book, job: &Job, request: &Request) {
    assert!(rt; book.node_count() == 11);
    assert!(rt; request.changes.len() <= 64);
    check(rt, book.version(3), 0);
    check(rt, count_key(book.func(3)), Some(0));
    check(rt, judge(book, job, request, 0), Ok(()));
    check(rt, judge(book, job, request, 1), Err(QFault::Backwards(1)));
}

fn count_key(func: &Func) -> Option<u32> {
    match func {
        Func::Count(count) => Some(count.key),
        _ => None,
    }
}

fn copied_book(rt: &(impl AllocGlobal + Abort), job: &Job) -> Book {
    let book = Book::of(rt.alloc(), job).expect(rt, "memory");
    book.copy().expect(rt, "memory")
}

fn copied_first(rt: &(impl AllocGlobal + Abort), requests: &[Request]) -> Request {
    let first = requests.first().expect(rt, "a request");
    first.copy(rt.alloc()).expect(rt, "memory")
}

const RECOUNTED: &str = r#"[[request]]
after = 0
[[request.change]]
node = "tally"
from = 0
kind = "count"
key = "who"
add = 1
into = "sum"
"#;

#[test]
fn books_begin_with_the_job(rt: HostRuntime) {
    let job = job_in(&rt, &[KINDS]);
    let requests = requests_in(&rt, &job, &[RECOUNTED]);
    let request = copied_first(&rt, requests.as_slice());
    check_book(&rt, &copied_book(&rt, &job), &job, &request);
}
