// The rows that a generator makes. The values were computed by another program.
use super::fixtures::{check, lines_of_rows};
use super::rows::{ONE_SOURCE, PLAIN, TWO_SOURCES, job_of};
use crate::tests::check_text;
use jobs::Job;
use payments::{PFault, make_rows};
use std::alloc::Global;
use std::process::Abort;

fn made(rt: &(impl AllocGlobal + Abort), job: &Job, seed: u64, rows: u64) -> String {
    let rows = make_rows(rt.alloc(), job, seed, rows).expect(rt, "rows");
    lines_of_rows(rt, rows.as_slice())
}

const FIRST_OF_TWO_SOURCES: &str = " 1.1 k4;k2;k4 k7;k3;k9 2158 k5;k2;k1
 1.2 k4;k8;k1 k5;k7;k9 19428 k9;k3;k1
 1.3 k2;k8;k4 k2;k8;k3 13198 k0;k8;k9
";

const FIRST_OF_ONE_SOURCE: &str = " 0.1 k3;k5;k1 0 11583
 0.2 k4;k3;k0 0 6056
";

#[test]
fn rows_are_made_by_draws(rt: HostRuntime) {
    let two = job_of(&rt, PLAIN, TWO_SOURCES);
    check_text(&rt, made(&rt, &two, 0, 3).as_bytes(), FIRST_OF_TWO_SOURCES);
    let columns = "\"account:text\", \"own:number:own\", \"amount:cents\"";
    let one = job_of(&rt, columns, ONE_SOURCE);
    check_text(&rt, made(&rt, &one, 1, 2).as_bytes(), FIRST_OF_ONE_SOURCE);
}

// The fault of so many rows, if they have one.
fn fault_of(alloc: Global, job: &Job, rows: u64) -> Option<PFault> {
    match make_rows(alloc, job, 0, rows) {
        Ok(_) => None,
        Err(fault) => Some(fault),
    }
}

// The job has weight 4, since two sources lead to two nodes.
#[test]
fn too_many_rows_to_make(rt: HostRuntime) {
    let job = job_of(&rt, PLAIN, TWO_SOURCES);
    let first_beyond = Some(PFault::TooMuch(262_145));
    check(&rt, fault_of(rt.alloc(), &job, 0), None);
    check(&rt, fault_of(rt.alloc(), &job, 262_145), first_beyond);
    check(&rt, fault_of(rt.alloc(), &job, u64::MAX), first_beyond);
}
