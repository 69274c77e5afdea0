ghost use Rattle.std.specs.Prelude.{◌≡◌, IfOk, IfSome};
ghost use Rattle.jobs.specs.Job.{job_view};
ghost use Rattle.jobs.specs.Nodes.{AreFromSources};
ghost use Rattle.versions.specs.Judged.{AreAccepted};

use flow_model::{RunRecord, Setup};
use flow_replay::plain_run;
use job_file::{read_job, read_requests};
use jobs::Job;
use payments::read_rows;
use std::alloc::Global;
use tuple_trace::{NoMemory, Rows};
use versions::{Judged, accepted_requests_stay_accepted, judge_all};

/// The texts that a run goes by, and its mode.
#[derive(Clone, Copy)]
pub struct Inputs<'a> {
    pub job: &'a str,
    pub requests: &'a str,
    pub payments: &'a str,
    /// Whether rows and requests get one order.
    pub ordered: bool,
}

impl Inputs<'_> {
    /// The setup. Returns `None` if a reader refuses a text, or memory runs out.
    pub fn setup(&self, alloc: Global) -> Option<Box<Setup>> {
        let job = job_of(alloc, self.job)?;
        setup_of(alloc, job, self.requests, self.ordered)
    }

    /// The setup and the rows. Returns `None` if a reader refuses a text, or memory runs out.
    pub fn read(&self, alloc: Global) -> Option<Case> {
        let job = job_of(alloc, self.job)?;
        let rows = rows_of(alloc, &job, self.payments)?;
        let setup = setup_of(alloc, job, self.requests, self.ordered)?;
        Some(Case { setup, rows })
    }

    /// The run of the plain executor.
    ///
    /// Returns `None` if a reader refuses a text, or memory runs out.
    pub fn run(&self, alloc: Global) -> Option<Box<RunRecord>> {
        let Case { setup, rows } = self.read(alloc)?;
        run_of(alloc, setup, &rows)
    }
}

/// A setup, and rows from sources of its job.
#[derive(Drop)]
pub struct Case {
    pub setup: Box<Setup>,
    pub rows: Rows,
    ghost sources: { AreFromSources (job_view setup.value.job) rows },
}

/// The job of a text. Returns `None` if the reader refuses it, or memory runs out.
pub fn job_of(alloc: Global, text: &str) -> Option<Job> {
    match read_job(alloc, text.as_bytes()) {
        Ok(job) => Some(job),
        Err(_) => None,
    }
}

/// The rows of a text. Returns `None` if the reader refuses it, or memory runs out.
pub fn rows_of(alloc: Global, job: &Job, text: &str) -> Option<Rows>
    ensures { IfSome result (λ rows. AreFromSources (job_view job.now) rows) }
{
    match read_rows(alloc, job, text.as_bytes()) {
        Ok(rows) => Some(rows),
        Err(_) => None,
    }
}

/// The setup of a job and a text of requests, `ordered` or not. Returns `None` if the reader
/// refuses the text, or memory runs out. A request that judging refuses is left out.
pub fn setup_of(alloc: Global, job: Job, requests: &str, ordered: bool) -> Option<Box<Setup>>
    ensures { IfSome result (λ setup. setup.value.job ≡ job) }
{
    let Ok(requests) = read_requests(alloc, &job, requests.as_bytes()) else {
        return None;
    };
    let Ok(judged) = judge_all(alloc, &job, &requests) else {
        return None;
    };
    accepted_requests_stay_accepted();
    match made(alloc, job, judged, ordered) {
        Ok(setup) => Box::new(alloc, setup).ok(),
        Err(_) => None,
    }
}

/// The run of the plain executor. Returns `None` if memory runs out.
pub fn run_of(alloc: Global, setup: Box<Setup>, rows: &Rows) -> Option<Box<RunRecord>>
    requires { AreFromSources (job_view setup.value.job) rows.now }
{
    match plain_run(alloc, Box::into_inner(setup), rows) {
        Ok(ran) => Box::new(alloc, ran).ok(),
        Err(_) => None,
    }
}

fn made(alloc: Global, job: Job, judged: Judged, ordered: bool) -> Result<Setup, NoMemory>
    requires { AreAccepted (job_view job) judged.accepted }
    ensures { IfOk result (λ setup. setup.job ≡ job) }
{
    if ordered {
        Setup::make_ordered(alloc, job, judged)
    } else {
        Setup::make(alloc, job, judged)
    }
}
