ghost use Rattle.std.specs.Prelude.{◌≡◌, ◌≢◌, Ok, Err, IfOk, IfErr};
ghost use Rattle.toml.specs.View.{items_view, table_view, view};
ghost use Rattle.jobs.specs.Job.{job_view};
ghost use Rattle.job_file.specs.Document.{all_of};
ghost use Rattle.job_file.specs.Requests.{changes_in, list_in, request_in, request_of};

use crate::changes::read_changes;
use crate::document::{has_only, items_or_none, table, whole_at};
use crate::fault::{FormFault, Part};
use crate::numbers::nearest;
use jobs::Job;
use std::alloc::Global;
use toml::{Table as Members, Value as Toml};
use versions::{Changes, Request, Requests};

/// Reads the table of a document as a request file.
pub(crate) fn read_list(alloc: Global, job: &Job, members: &Members) -> Result<Requests, FormFault>
    ensures ok { IfOk result (λ requests. list_in (job_view job.now) (table_view members.now)
        ≡ Ok requests) }
    ensures fault { IfErr result (λ fault. fault ≢ FormFault.NoMemory
        → list_in (job_view job.now) (table_view members.now) ≡ Err fault) }
{
    if !has_only(members, &["request"], &[]) {
        return Err(FormFault::Shape(Part::Unknown));
    }
    read_requests_of(
        alloc,
        job,
        items_or_none(members, "request", Part::Request)?,
    )
}

fn read_requests_of(alloc: Global, job: &Job, items: &[Toml]) -> Result<Requests, FormFault>
    ensures ok { IfOk result (λ requests. all_of (request_of (job_view job.now))
        (items_view items.now) ≡ Ok requests) }
    ensures fault { IfErr result (λ fault. fault ≢ FormFault.NoMemory
        → all_of (request_of (job_view job.now)) (items_view items.now) ≡ Err fault) }
{
    let mut list = Requests::new(alloc);
    for item in items {
        list.push(read_request(alloc, job, item)?)?;
    }
    Ok(list)
}

fn read_request(alloc: Global, job: &Job, item: &Toml) -> Result<Request, FormFault>
    ensures ok { IfOk result (λ request. request_of (job_view job.now) (view item.now)
        ≡ Ok request) }
    ensures fault { IfErr result (λ fault. fault ≢ FormFault.NoMemory
        → request_of (job_view job.now) (view item.now) ≡ Err fault) }
{
    request_from(alloc, job, table(item, Part::Request)?)
}

fn request_from(alloc: Global, job: &Job, members: &Members) -> Result<Request, FormFault>
    ensures ok { IfOk result (λ request. request_in (job_view job.now) (table_view members.now)
        ≡ Ok request) }
    ensures fault { IfErr result (λ fault. fault ≢ FormFault.NoMemory
        → request_in (job_view job.now) (table_view members.now) ≡ Err fault) }
{
    if !has_only(members, &["after", "change"], &[]) {
        return Err(FormFault::Shape(Part::Unknown));
    }
    let after = whole_at(members, "after", Part::After)?;
    let changes = changes_at(alloc, job, members)?;
    Ok(Request {
        after: u64::from(nearest(after)),
        changes,
    })
}

fn changes_at(alloc: Global, job: &Job, members: &Members) -> Result<Changes, FormFault>
    ensures ok { IfOk result (λ changes. changes_in (job_view job.now) (table_view members.now)
        ≡ Ok changes) }
    ensures fault { IfErr result (λ fault. fault ≢ FormFault.NoMemory
        → changes_in (job_view job.now) (table_view members.now) ≡ Err fault) }
{
    read_changes(alloc, job, items_or_none(members, "change", Part::Change)?)
}
