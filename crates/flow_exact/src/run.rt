ghost use Rattle.std.specs.Prelude.{◌≡◌, ◌≤◌, [], IfOk, length};
ghost use Rattle.jobs.specs.Job.{job_view};
ghost use Rattle.jobs.specs.Nodes.{AreFromSources};
ghost use Rattle.versions.specs.Judged.{AreAccepted};
ghost use Rattle.versions.specs.Kept.{AreInOrder};
ghost use Rattle.flow_model.specs.Planned.{IsPlanned};
ghost use Rattle.flow_model.specs.Record.{record_view};
ghost use Rattle.flow_model.specs.Run.{IsRun};
ghost use Rattle.flow_model.specs.Setup.{setup_view};
ghost use Rattle.stream_law.specs.Border.{AreExactAfter};
ghost use Rattle.flow_exact.specs.inner.Course.{IsCourse, with_requests};

use crate::course::Course;
use crate::waiting::{Emptied, Planned, take_requests};
use flow_engine::Engine;
use flow_model::{RunRecord, Setup};
use lane_core::Lanes;
use std::sync::Wait;
use std::thread::Threads;
use tuple_trace::{Gate, NoMemory, Rows};
use versions::{Request, accepted_requests_are_in_order};

/// Runs rows by a setup on an engine. The border of each request is its row, or the last row if
/// that comes before: rows up to it meet old functions at all nodes that the request changes, and
/// later rows new ones.
///
/// The rows up to each border are run in a part, and the request in a part without a row. The
/// record of all parts is one run of the setup and the rows, however many threads there are and
/// however they are scheduled. The one error is out of memory.
pub fn run_exactly<R, L: Lanes + Sync, G: Gate + Sync>(
    engine: &Engine<'_, R, L, G>,
    setup: Setup,
    rows: &Rows,
) -> Result<RunRecord, NoMemory>
where
    R: Threads + Wait + Sync,
    requires { AreFromSources (job_view setup.job) rows.now }
    ensures view { IfOk result (λ ran. setup_view ran.setup ≡ setup_view setup) }
    ensures refused { IfOk result (λ ran. ran.setup.judged.refused ≡ setup.judged.refused) }
    ensures run { IfOk result (λ ran. IsRun (setup_view setup) rows.now (record_view ran)) }
    ensures exact { IfOk result (λ ran. AreExactAfter 0
        (record { setup = setup_view setup; rows = rows.now; ran = record_view ran })) }
{
    accepted_requests_are_in_order();
    let Emptied { setup, waiting } = take_requests(engine.alloc, setup);
    let last = rows.len() as u64;
    let row = first_border(waiting.requests.as_slice(), last);
    let course = Course::begin(engine, setup, rows, row)?;
    let issued = pass_all(engine, course, rows, &waiting)?;
    let fed = issued.feed(engine, rows, last)?;
    Ok(fed.record())
}

// The row of the first request, or `last` if that comes before or there is no request.
fn first_border(requests: &[Request], last: u64) -> u64
    ensures within { result ≤ last }
    ensures in_order { AreInOrder 0 requests.now → AreInOrder result requests.now }
{
    match requests.first() {
        Some(request) => request.after.min(last),
        None => last,
    }
}

// The course with these requests, of which none was issued, and the rows up to their borders.
fn pass_all<R, L: Lanes + Sync, G: Gate + Sync>(
    engine: &Engine<'_, R, L, G>,
    course: Course,
    rows: &Rows,
    waiting: &Planned,
) -> Result<Course, NoMemory>
where
    R: Threads + Wait + Sync,
    requires course { IsCourse rows.now course }
    requires no_request { course.setup.judged.accepted ≡ [] }
    requires no_plan { course.setup.plans ≡ [] }
    requires one_each { length waiting.now.plans ≡ length waiting.now.requests }
    requires accepted { AreAccepted (job_view course.setup.job) waiting.now.requests }
    requires planned { ∥ IsPlanned (with_requests (setup_view course.setup) waiting.now.requests
        waiting.now.plans) ∥₁ }
    requires in_order { AreInOrder course.start.row waiting.now.requests }
    ensures setup { IfOk result (λ passed. setup_view passed.setup
        ≡ with_requests (setup_view course.setup) waiting.now.requests waiting.now.plans) }
    ensures refused { IfOk result (λ passed.
        passed.setup.judged.refused ≡ course.setup.judged.refused) }
    ensures course { IfOk result (IsCourse rows.now) }
{
    let mut course = course;
    let requests = waiting.requests.as_slice();
    let plans = waiting.plans.as_slice();
    for place in 0..requests.len() {
        course = course.pass(engine, rows, &requests[place], plans[place])?;
    }
    Ok(course)
}
