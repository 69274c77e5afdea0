// Files that are read, and what they hold.
ghost use Rattle.std.specs.Prelude.{◌≡◌, All, IfOk, IfErr, OnOk};
ghost use Rattle.jobs.specs.Job.{job_view};
ghost use Rattle.jobs.specs.Limits.{HasShortTexts};
ghost use Rattle.jobs.specs.Nodes.{AreFromSources};
ghost use Rattle.job_file.specs.RequestSizes.{AreFew};
ghost use Rattle.tuple_trace.specs.declared.row.Row.{Row};
ghost use Rattle.versions.specs.Kept.{HaveLimits};
ghost use Rattle.flow_model.specs.Setup.{setup_view};
ghost use Rattle.fries_steps.specs.Reading.{AreNoRequests, AreNoRows, AreRequestsOf, AreRowsOf};
ghost use Rattle.fries_steps.specs.Reading.{IsJobOf, IsNoJob, IsNoStart, IsRead, IsStartIn};
ghost use Rattle.fries_steps.specs.Reading.{IsUnread};

use flow_model::{Setup, Start};
use fries_lines::{Fault, FileIs};
use job_file::{read_job, read_requests};
use jobs::Job;
use payments::{Shelf, ShelfFault};
use row_threads::read_rows;
use savepoint_file::read_save;
use std::alloc::Global;
use std::thread::Threads;
use text_threads::Team;
use tuple_trace::{Bytes, Rows, Word};
use versions::Requests;

/// The job of a job file.
pub fn job_in<S: Shelf>(alloc: Global, name: &Word, shelf: &mut S) -> Result<Job, Fault>
    ensures job { IfOk result (λ job. IsJobOf (S.state shelf.old).files name.now (job_view job)) }
    ensures kept { OnOk result (S.state shelf.new ≡ S.state shelf.old) }
    ensures files { (S.state shelf.new).files ≡ (S.state shelf.old).files }
    ensures draft { (S.state shelf.new).draft ≡ (S.state shelf.old).draft }
    ensures cause { IfErr result (IsNoJob (S.state shelf.old).files name.now
        (S.state shelf.old).faults (S.state shelf.new).faults) }
{
    let bytes = read_file(alloc, FileIs::Job, name, shelf)?;
    Ok(read_job(alloc, bytes.as_slice())?)
}

/// The requests that a request file makes of a job.
pub fn requests_in<S: Shelf>(
    alloc: Global,
    job: &Job,
    name: &Word,
    shelf: &mut S,
) -> Result<Requests, Fault>
    ensures requests { IfOk result (λ requests.
        AreRequestsOf (S.state shelf.old).files name.now (job_view job.now) requests) }
    ensures few { IfOk result AreFew }
    ensures limits { IfOk result HaveLimits }
    ensures kept { OnOk result (S.state shelf.new ≡ S.state shelf.old) }
    ensures files { (S.state shelf.new).files ≡ (S.state shelf.old).files }
    ensures draft { (S.state shelf.new).draft ≡ (S.state shelf.old).draft }
    ensures cause { IfErr result (AreNoRequests (S.state shelf.old).files name.now
        (job_view job.now)
        (S.state shelf.old).faults (S.state shelf.new).faults) }
{
    let bytes = read_file(alloc, FileIs::Requests, name, shelf)?;
    Ok(read_requests(alloc, job, bytes.as_slice())?)
}

/// The rows of a payments file of a job, which the team reads.
pub fn rows_in<R: Threads + Sync, S: Shelf>(
    team: &Team<'_, R>,
    job: &Job,
    name: &Word,
    shelf: &mut S,
) -> Result<Rows, Fault>
    ensures rows { IfOk result (λ rows.
        AreRowsOf (S.state shelf.old).files name.now (job_view job.now) rows) }
    ensures sources { IfOk result (λ rows. AreFromSources (job_view job.now) rows) }
    ensures texts { IfOk result (λ rows. All (λ (row : Row). HasShortTexts row.tuple) rows) }
    ensures kept { OnOk result (S.state shelf.new ≡ S.state shelf.old) }
    ensures files { (S.state shelf.new).files ≡ (S.state shelf.old).files }
    ensures draft { (S.state shelf.new).draft ≡ (S.state shelf.old).draft }
    ensures cause { IfErr result (AreNoRows (S.state shelf.old).files name.now (job_view job.now)
        (S.state shelf.old).faults (S.state shelf.new).faults) }
{
    let bytes = read_file(team.alloc, FileIs::Payments, name, shelf)?;
    Ok(read_rows(team, job, bytes.as_slice())?)
}

/// Where a run goes on by a savepoint's file, with this setup and this number of rows.
pub fn start_in<S: Shelf>(
    alloc: Global,
    setup: &Setup,
    rows: u64,
    name: &Word,
    shelf: &mut S,
) -> Result<Start, Fault>
    ensures start { IfOk result (IsStartIn (S.state shelf.old).files name.now
        (setup_view setup.now) rows) }
    ensures kept { OnOk result (S.state shelf.new ≡ S.state shelf.old) }
    ensures files { (S.state shelf.new).files ≡ (S.state shelf.old).files }
    ensures draft { (S.state shelf.new).draft ≡ (S.state shelf.old).draft }
    ensures cause { IfErr result (IsNoStart (S.state shelf.old).files name.now
        (setup_view setup.now) rows (S.state shelf.old).faults (S.state shelf.new).faults) }
{
    let bytes = read_file(alloc, FileIs::Save, name, shelf)?;
    Ok(read_save(alloc, setup, rows, bytes.as_slice())?)
}

/// All bytes of a file, up to the limit of its kind.
#[tactic(auto, using(crate::proofs::ReadLemmas::kept_whole))]
pub fn read_file<S: Shelf>(
    alloc: Global,
    file: FileIs,
    name: &Word,
    shelf: &mut S,
) -> Result<Bytes, Fault>
    ensures bytes { IfOk result (λ bytes. IsRead file (S.state shelf.old).files name.now bytes) }
    ensures kept { OnOk result (S.state shelf.new ≡ S.state shelf.old) }
    ensures files { (S.state shelf.new).files ≡ (S.state shelf.old).files }
    ensures draft { (S.state shelf.new).draft ≡ (S.state shelf.old).draft }
    ensures cause { IfErr result (IsUnread file (λ why bytes. ⊥) (S.state shelf.old).files name.now
        (S.state shelf.old).faults (S.state shelf.new).faults) }
{
    match shelf.read_all(alloc, name, file.limit()) {
        Ok(bytes) => Ok(bytes),
        Err(ShelfFault::Failed) => Err(Fault::Read(file)),
        Err(ShelfFault::Long) => Err(Fault::Long(file)),
        Err(ShelfFault::NoMemory) => Err(Fault::NoMemory),
    }
}
