// A setup that is followed by later requests.
ghost use Rattle.std.specs.Prelude.{◌≡◌, [], List, Some, IfSome};
ghost use Rattle.jobs.specs.Job.{job_view};
ghost use Rattle.versions.specs.Judged.{judged_within};
ghost use Rattle.versions.specs.declared.request.Request.{Request as RequestIs};

use crate::tests::plans::asks;
use flow_model::Setup;
use job_file::read_requests_up_to;
use jobs::Job;
use std::alloc::Global;
use stream_law::accepted_requests_split_within;
use test_runs::job_of;
use test_texts::ROOF;
use versions::{
    Judged, MAX_STREAM_REQUESTS, Requests, accepted_requests_stay_accepted, judge_all, judge_within,
};

/// A change of the filter, then a request that makes the map a split, and one that would make the
/// filter a split.
const LATER: &str = r#"[[request]]
after = 0
[[request.change]]
node = "m"
from = 0
kind = "filter"
when = [["amount", ">=", 1]]
[[request]]
after = 5
[[request.change]]
node = "u"
from = 0
kind = "split"
on = "tags"
by = ";"
most = 3
[[request]]
after = 5
[[request.change]]
node = "m"
from = 1
kind = "split"
on = "tags"
by = ";"
most = 1
"#;

/// The setup with which a stream begins that has no request yet.
fn begun(alloc: Global, job: Job) -> Option<Setup>
    ensures { IfSome result (λ setup. setup.judged.accepted ≡ []) }
{
    let Ok(none) = judge_all(alloc, &job, &Requests::new(alloc)) else {
        return None;
    };
    accepted_requests_stay_accepted();
    match Setup::make_for_stream(alloc, job, none, false) {
        Ok(setup) => Some(setup),
        Err(_) => None,
    }
}

/// The requests of a text, judged for a stream with this setup.
fn judged(alloc: Global, setup: &Setup, text: &str) -> Option<Judged>
    ensures { IfSome result (λ judged. (requests : List RequestIs) ×
        (judged ≡ judged_within (Some setup.now.splits) (job_view setup.now.job) requests)) }
{
    let read = read_requests_up_to(alloc, &setup.job, text.as_bytes(), MAX_STREAM_REQUESTS);
    let Ok(requests) = read else {
        return None;
    };
    judge_within(alloc, &setup.job, Some(setup.splits), &requests).ok()
}

/// The setup of a stream, followed by the requests of a text.
fn followed(alloc: Global, job: &str, requests: &str) -> Option<Box<Setup>> {
    let setup = begun(alloc, job_of(alloc, job)?)?;
    let later = judged(alloc, &setup, requests)?;
    accepted_requests_stay_accepted();
    accepted_requests_split_within();
    match setup.follow(alloc, later) {
        Ok(setup) => Box::new(alloc, setup).ok(),
        Err(_) => None,
    }
}

/// Whether the mask of splits has the map alone, and the first cover begins at it.
fn covers_from_the_map(setup: &Setup) -> bool {
    setup.splits == 0b0010
        && setup.request_count() == 2
        && setup.judged.refused.len() == 1
        && asks(setup.plan_of(1), 0b0100, 0b0010, 0b010)
        && asks(setup.plan_of(2), 0b0010, 0b0010, 0)
}

fn are_followed(alloc: Global) -> bool {
    match followed(alloc, ROOF, LATER) {
        Some(setup) => covers_from_the_map(&setup),
        None => false,
    }
}

/// The map may become a split, so the cover of the filter's change begins there from the start.
#[test]
fn plans_before_a_later_split(rt: HostRuntime) {
    assert!(rt; are_followed(rt.alloc()));
}
