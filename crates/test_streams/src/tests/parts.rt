// Which requests a part of a stream has, and which wait for a later one.
ghost use Rattle.std.specs.Prelude.{◌≡◌};

use flow_model::Setup;
use job_file::{read_job, read_requests};
use std::alloc::Global;
use std::process::Abort;
use stream_step::{NextPart, Stream, StreamMode};
use versions::{accepted_requests_stay_accepted, judge_all};

/// A map with a roof of 3 before a sink.
pub(crate) const JOB: &str = r#"columns = ["account:text", "tags:text"]
[[node]]
name = "card"
kind = "source"
[[node]]
name = "u"
kind = "map"
steps = []
roof = 3
[[node]]
name = "out"
kind = "sink"
columns = ["account"]
[[edge]]
from = "card"
to = "u"
[[edge]]
from = "u"
to = "out"
"#;

/// Two changes of the map, after rows 2 and 5.
pub(crate) const REQUESTS: &str = r#"[[request]]
after = 2
[[request.change]]
node = "u"
from = 0
kind = "filter"
when = []
[[request]]
after = 5
[[request.change]]
node = "u"
from = 1
kind = "split"
on = "tags"
by = ";"
most = 3
"#;

/// A stream that is neither in ordered mode nor exact.
pub(crate) const PLAIN: StreamMode = StreamMode {
    ordered: false,
    exact: false,
};

/// The stream of a job, with the requests of its first reading.
pub(crate) fn begun(rt: &impl Abort, alloc: Global, job: &str, requests: &str) -> Stream
    ensures { result.start.row ≡ 0 }
{
    let job = read_job(alloc, job.as_bytes()).expect(rt, "a job");
    let requests = read_requests(alloc, &job, requests.as_bytes()).expect(rt, "requests");
    let judged = judge_all(alloc, &job, &requests).expect(rt, "memory");
    accepted_requests_stay_accepted();
    Stream::begin(alloc, job, judged, PLAIN).expect(rt, "memory")
}

/// The row after which the only request of a setup is issued.
fn only_wait(setup: &Setup) -> Option<u64> {
    if setup.request_count() != 1 {
        return None;
    }
    Some(setup.after(1))
}

/// The row that the only request of a part waits for, how many requests are left for later parts,
/// and the last row of the part.
fn numbers_of(part: &NextPart) -> (Option<u64>, usize, u64) {
    (only_wait(&part.setup), part.pending.len(), part.last)
}

/// Row 3 is the last of the first part, so the second request is left for a later one.
#[test]
fn requests_wait_for_their_part(rt: HostRuntime) {
    let part = begun(&rt, rt.alloc(), JOB, REQUESTS).next_part(rt.alloc(), 3);
    assert_eq!(rt; numbers_of(&part.expect(&rt, "memory")), (Some(2), 1, 3));
}

#[test]
fn the_last_part_has_all_requests(rt: HostRuntime) {
    let part = begun(&rt, rt.alloc(), JOB, REQUESTS).last_part(rt.alloc());
    assert_eq!(rt; part.expect(&rt, "memory").setup.request_count(), 2);
}
