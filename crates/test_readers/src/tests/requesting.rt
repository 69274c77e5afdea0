// Request files, and the first fault of each.
use super::fixtures::{check, job_in, joined, repeated, requests_in};
use super::request_cases;
use job_file::{ReqFileFault, Which, read_requests};
use jobs::Func;
use keyed_state::Carry;
use std::process::Abort;
use test_texts::{PAYMENTS_JOB, PAYMENTS_REQUESTS};
use versions::Request;

/// How many requests a reader finds in a file.
pub type Asked = Result<usize, ReqFileFault>;

/// What a piece of text is of a request file.
#[derive(Clone, Copy)]
pub enum RequestText {
    /// The whole file.
    File,
    /// The one change of the first request.
    Change,
    /// The carry of that change.
    Carry,
}

const REQUEST: &str = "[[request]]\nafter = 4\n[[request.change]]\n";

const CARRIED: &str = "node = \"tally\"\nfrom = 0\nkind = \"source\"\ncarry = ";

fn asked(rt: &(impl AllocGlobal + Abort), pieces: &[&str]) -> Asked {
    let job = job_in(rt, &[PAYMENTS_JOB]);
    let text = joined(rt, pieces);
    match read_requests(rt.alloc(), &job, text.as_bytes()) {
        Ok(requests) => Ok(requests.len()),
        Err(fault) => Err(fault),
    }
}

fn asked_by(rt: &(impl AllocGlobal + Abort), text: RequestText, piece: &str) -> Asked {
    match text {
        RequestText::File => asked(rt, &[piece]),
        RequestText::Change => asked(rt, &[REQUEST, piece]),
        RequestText::Carry => asked(rt, &[REQUEST, CARRIED, piece, "\n"]),
    }
}

#[test]
fn faults_of_requests(rt: HostRuntime) {
    for (text, piece, want) in request_cases::CASES {
        assert_eq!(rt; asked_by(&rt, *text, piece), *want, "{piece}");
    }
}

const NO_CHANGE: &str = "[[request]]\nafter = 1\n";

const CHANGE: &str = "[[request.change]]\nnode = \"big\"\nfrom = 0\nkind = \"source\"\n";

/// The head of a request file, what follows it so many times, and what the reader answers.
static LIMITS: &[(&str, &str, u32, Asked)] = &[
    ("", NO_CHANGE, 64, Ok(64)),
    (
        "",
        NO_CHANGE,
        65,
        Err(ReqFileFault::Limit(Which::Requests, 65)),
    ),
    (NO_CHANGE, CHANGE, 64, Ok(1)),
    (
        NO_CHANGE,
        CHANGE,
        65,
        Err(ReqFileFault::Limit(Which::Changes, 65)),
    ),
];

#[test]
fn requests_and_changes_have_limits(rt: HostRuntime) {
    for (head, piece, count, want) in LIMITS {
        let text = repeated(&rt, head, piece, *count);
        check(&rt, asked(&rt, &[text.as_str()]), *want);
    }
}

/// A request whose first change is a filter: its row, the node, the version, the carry, and the
/// number of conditions.
type Told = (u64, u32, u64, Carry, Option<usize>);

static TOLD: &[Told] = &[
    (4, 3, 0, Carry::Keep, Some(1)),
    (8, 7, 0, Carry::Keep, Some(1)),
    (9, 3, 0, Carry::Keep, Some(1)),
];

fn told(rt: &impl Abort, request: &Request) -> Told {
    let change = request.changes.as_slice().first().expect(rt, "a change");
    let conds = match &change.func {
        Func::Filter(conds) => Some(conds.len()),
        _ => None,
    };
    (request.after, change.node, change.from, change.carry, conds)
}

fn check_told(rt: &impl Abort, requests: &[Request]) {
    check(rt, requests.len(), TOLD.len());
    for (request, want) in requests.iter().zip(TOLD) {
        check(rt, told(rt, request), *want);
    }
}

#[test]
fn requests_of_the_example(rt: HostRuntime) {
    let job = job_in(&rt, &[PAYMENTS_JOB]);
    let requests = requests_in(&rt, &job, &[PAYMENTS_REQUESTS]);
    check_told(&rt, requests.as_slice());
}
