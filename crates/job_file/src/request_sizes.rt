ghost use Rattle.std.specs.Prelude.{◌≡◌, IfNone};
ghost use Rattle.toml.specs.View.{items_view, table_view, view};
ghost use Rattle.jobs.specs.Limits.{first_oversize, outside};
ghost use Rattle.job_file.specs.RequestSizes.{AreUpTo, change_oversize, list_oversize};
ghost use Rattle.job_file.specs.RequestSizes.{request_oversize, wide_change, wide_in_requests};
ghost use Rattle.job_file.specs.RequestSizes.{wide_request, wide_request_item};
ghost use Rattle.job_file.specs.Wide.{first_found};
ghost use Rattle.versions.specs.Kept.{HaveLimits};

use crate::document::{items_or_none, table};
use crate::fault::Part;
use crate::wide::wide_at;
use jobs::{Which, outside, size_fault};
use toml::{Table as Members, Value as Toml};
use versions::{Change, MAX_AFTER, MAX_CHANGES, Request};

/// The first number of the requests of a document that a request has no room for.
pub(crate) fn wide_in_requests(members: &Members) -> Option<(Which, i64)>
    ensures { result ≡ wide_in_requests (table_view members.now) }
{
    match items_or_none(members, "request", Part::Request) {
        Ok(items) => first_wide_request(items),
        Err(_) => None,
    }
}

fn first_wide_request(items: &[Toml]) -> Option<(Which, i64)>
    ensures { result ≡ first_found wide_request_item (items_view items.now) }
{
    for item in items {
        if let Some(wide) = wide_request_item(item) {
            return Some(wide);
        }
    }
    None
}

fn wide_request_item(item: &Toml) -> Option<(Which, i64)>
    ensures { result ≡ wide_request_item (view item.now) }
{
    match table(item, Part::Request) {
        Ok(members) => wide_request(members),
        Err(_) => None,
    }
}

fn wide_request(members: &Members) -> Option<(Which, i64)>
    ensures { result ≡ wide_request (table_view members.now) }
{
    if let Some(wide) = wide_at(members, "after", Which::After) {
        return Some(wide);
    }
    match items_or_none(members, "change", Part::Change) {
        Ok(items) => first_wide_change(items),
        Err(_) => None,
    }
}

fn first_wide_change(items: &[Toml]) -> Option<(Which, i64)>
    ensures { result ≡ first_found wide_change (items_view items.now) }
{
    for item in items {
        if let Some(wide) = wide_change(item) {
            return Some(wide);
        }
    }
    None
}

fn wide_change(item: &Toml) -> Option<(Which, i64)>
    ensures { result ≡ wide_change (view item.now) }
{
    match table(item, Part::Change) {
        Ok(members) => wide_at(members, "most", Which::Most),
        Err(_) => None,
    }
}

/// The first size of these requests that is outside of its limits. There may be up to `most`.
pub(crate) fn list_fault(most: usize, requests: &[Request]) -> Option<(Which, i64)>
    ensures first { result ≡ list_oversize most requests.now }
    ensures few { IfNone result (AreUpTo most requests.now) }
    ensures limits { IfNone result (HaveLimits requests.now) }
{
    let count = requests.len() as u64;
    if let Some(fault) = outside(Which::Requests, 0, most as u64, count) {
        return Some(fault);
    }
    requests_fault(requests)
}

fn requests_fault(requests: &[Request]) -> Option<(Which, i64)>
    ensures { result ≡ first_oversize request_oversize requests.now }
{
    for request in requests {
        if let Some(fault) = request_fault(request) {
            return Some(fault);
        }
    }
    None
}

fn request_fault(request: &Request) -> Option<(Which, i64)>
    ensures { result ≡ request_oversize request.now }
{
    if let Some(fault) = outside(Which::After, 0, MAX_AFTER, request.after) {
        return Some(fault);
    }
    let count = request.changes.len() as u64;
    if let Some(fault) = outside(Which::Changes, 0, MAX_CHANGES as u64, count) {
        return Some(fault);
    }
    changes_fault(request.changes.as_slice())
}

fn changes_fault(changes: &[Change]) -> Option<(Which, i64)>
    ensures { result ≡ first_oversize change_oversize changes.now }
{
    for change in changes {
        if let Some(fault) = size_fault(&change.func) {
            return Some(fault);
        }
    }
    None
}
