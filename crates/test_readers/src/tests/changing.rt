// Which functions fit a job.
use super::change_cases;
use super::fixtures::{job_in, requests_in};
use jobs::{Func, fits};
use std::process::Abort;
use test_texts::PAYMENTS_JOB;
use versions::Request;

/// Whether the function of this text fits the job of payments.
fn fits_payments(rt: &(impl AllocGlobal + Abort), func: &str) -> bool {
    let change = "[[request]]\nafter = 0\n[[request.change]]\nnode = \"big\"\nfrom = 0\n";
    let job = job_in(rt, &[PAYMENTS_JOB]);
    let requests = requests_in(rt, &job, &[change, func]);
    fits(&job, first_func(rt, requests.as_slice()))
}

fn first_func<'a>(rt: &impl Abort, requests: &'a [Request]) -> &'a Func {
    let request = requests.first().expect(rt, "a request");
    &request
        .changes
        .as_slice()
        .first()
        .expect(rt, "a change")
        .func
}

#[test]
fn functions_fit_a_job(rt: HostRuntime) {
    for (func, want) in change_cases::FUNCTIONS {
        assert_eq!(rt; fits_payments(&rt, func), *want, "{func}");
    }
}
