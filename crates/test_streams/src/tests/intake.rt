// What a stream takes of its file of requests, reading after reading.
ghost use Rattle.jobs.specs.Job.{job_view};
ghost use Rattle.job_file.specs.RequestSizes.{AreUpTo};
ghost use Rattle.stream_save.specs.StreamReading.{CanSaveStream};
ghost use Rattle.stream_intake.specs.Intake.{IsKnownTo};

use crate::tests::parts::{JOB, PLAIN, REQUESTS};
use flow_model::Setup;
use job_file::{read_job, read_requests_up_to};
use jobs::Job;
use std::alloc::Global;
use std::process::Abort;
use stream_intake::{Intake, Taken, begin, resume, take};
use stream_save::{StreamSave, StreamSaveFault, read_stream, read_streams_can_be_saved};
use versions::{MAX_STREAM_REQUESTS, Refusals, Requests};

/// The first of the two changes.
const FIRST: &str = r#"[[request]]
after = 2
[[request.change]]
node = "u"
from = 0
kind = "filter"
when = []
"#;

/// Another first change, and a second that was written for the job's function.
const STALE: &str = r#"[[request]]
after = 1
[[request.change]]
node = "u"
from = 0
kind = "map"
steps = []
[[request]]
after = 5
[[request.change]]
node = "u"
from = 0
kind = "map"
steps = []
"#;

/// After row 4 of a stream that has read two requests and issued the first, behind row 3.
const SAVE: &str = "fries,stream,4,1,2,0,0\nwait,1,3\n";

/// The same, of which both requests were issued.
const BOTH: &str = "fries,stream,4,2,2,0,0\nwait,1,3\nwait,2,4\n";

/// The requests of a file.
fn requests_of(rt: &impl Abort, alloc: Global, job: &Job, text: &str) -> Requests
    ensures { AreUpTo MAX_STREAM_REQUESTS result }
{
    read_requests_up_to(alloc, job, text.as_bytes(), MAX_STREAM_REQUESTS).expect(rt, "requests")
}

/// The stream of the job, with the requests of its first reading.
fn begun(rt: &impl Abort, alloc: Global, requests: &str) -> Intake
    ensures { IsKnownTo result.known.requests result.stream }
{
    let job = read_job(alloc, JOB.as_bytes()).expect(rt, "a job");
    let requests = requests_of(rt, alloc, &job, requests);
    begin(alloc, job, requests, PLAIN).expect(rt, "memory")
}

/// The place of the first request that was refused.
fn first_place(refused: &Refusals) -> Option<u32> {
    Some(refused.as_slice().first()?.place)
}

/// How many requests are pending and how many are known after a later reading, and the place of the
/// first that it refuses.
fn after_reading(
    rt: &impl Abort,
    alloc: Global,
    first: &str,
    later: &str,
) -> (usize, usize, Option<u32>) {
    let Intake {
        stream,
        mut known,
        ..
    } = begun(rt, alloc, first);
    let found = requests_of(rt, alloc, &stream.setup.job, later);
    let Taken { stream, refused } = take(alloc, stream, &mut known, found).expect(rt, "memory");
    (
        stream.pending.len(),
        known.requests.len(),
        first_place(&refused),
    )
}

const READINGS: [(&str, &str, (usize, usize, Option<u32>)); 4] = [
    ("", REQUESTS, (2, 2, None)),
    (FIRST, REQUESTS, (2, 2, None)),
    (REQUESTS, FIRST, (2, 2, None)),
    (FIRST, STALE, (1, 2, Some(2))),
];

#[test]
fn later_requests_come_after_the_known_ones(rt: HostRuntime) {
    for (first, later, wanted) in READINGS {
        assert_eq!(rt; after_reading(&rt, rt.alloc(), first, later), wanted);
    }
}

/// A job, and what a text tells of the savepoint of its stream.
fn saved(rt: &impl Abort, alloc: Global, text: &str) -> (Job, StreamSave)
    ensures { CanSaveStream (job_view result.0) result.1 }
{
    let Intake { stream, .. } = begun(rt, alloc, "");
    let save = read_stream(alloc, &stream.setup, text.as_bytes()).expect(rt, "a savepoint");
    read_streams_can_be_saved(&stream.setup);
    (stream.setup.job, save)
}

/// The row that the first request of a setup waits for.
fn first_wait(setup: &Setup) -> Option<u64> {
    if setup.request_count() == 0 {
        return None;
    }
    Some(setup.after(1))
}

/// What becomes of a stream that is to go on. If it does, the first request that was issued waits
/// for this row, and so many are pending.
type Gone = Result<(Option<u64>, usize), StreamSaveFault>;

/// What becomes of the stream with this savepoint and this file of requests.
fn after_resume(rt: &impl Abort, alloc: Global, save: &str, requests: &str) -> Gone {
    let (job, save) = saved(rt, alloc, save);
    let requests = requests_of(rt, alloc, &job, requests);
    match resume(alloc, job, requests, PLAIN, save) {
        Ok(intake) => Ok((
            first_wait(&intake.stream.setup),
            intake.stream.pending.len(),
        )),
        Err(fault) => Err(fault),
    }
}

const SAVES: [(&str, &str, Gone); 4] = [
    (SAVE, REQUESTS, Ok((Some(3), 1))),
    (SAVE, FIRST, Ok((Some(3), 0))),
    (BOTH, REQUESTS, Ok((Some(3), 0))),
    (BOTH, FIRST, Err(StreamSaveFault::Count(2))),
];

#[test]
fn streams_go_on_from_their_savepoint(rt: HostRuntime) {
    for (save, requests, wanted) in SAVES {
        assert_eq!(rt; after_resume(&rt, rt.alloc(), save, requests), wanted);
    }
}
