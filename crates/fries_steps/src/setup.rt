// The setup of a job and its requests.
ghost use Rattle.std.specs.Prelude.{◌≡◌, IfOk};
ghost use Rattle.jobs.specs.Job.{job_view};
ghost use Rattle.job_file.specs.RequestSizes.{AreFew};
ghost use Rattle.versions.specs.Judged.{AreAccepted};
ghost use Rattle.flow_model.specs.Planned.{IsExact};
ghost use Rattle.flow_model.specs.Setup.{setup_view};
ghost use Rattle.fries_steps.specs.SetupFor.{AreSame, IsSetupFor};

use flow_laws::plans_number_all_nodes;
use flow_model::{Setup, plans_are_least};
use jobs::Job;
use std::alloc::Global;
use tuple_trace::NoMemory;
use versions::{Judged, Requests, accepted_requests_stay_accepted, judge_all};

/// Judges the requests that are made of a job, and makes their setup. In ordered mode rows and
/// requests have one order. The one error is out of memory.
pub fn setup_of(
    alloc: Global,
    job: Job,
    requests: &Requests,
    ordered: bool,
) -> Result<Setup, NoMemory>
    requires { AreFew requests.now }
    ensures { IfOk result (IsSetupFor AreSame ordered (job_view job) requests.now) }
{
    accepted_requests_stay_accepted();
    let judged = judge_all(alloc, &job, requests)?;
    let setup = setup_in_mode(alloc, job, judged, ordered)?;
    plans_are_least(&setup);
    plans_number_all_nodes(&setup);
    Ok(setup)
}

fn setup_in_mode(alloc: Global, job: Job, judged: Judged, ordered: bool) -> Result<Setup, NoMemory>
    requires { AreAccepted (job_view job) judged.accepted }
    ensures job { IfOk result (λ setup. setup.job ≡ job) }
    ensures judged { IfOk result (λ setup. setup.judged ≡ judged) }
    ensures exact { IfOk result (λ setup. IsExact (setup_view setup)) }
    ensures mode { IfOk result (λ setup. setup.ordered ≡ ordered) }
{
    if ordered {
        Setup::make_ordered(alloc, job, judged)
    } else {
        Setup::make(alloc, job, judged)
    }
}
