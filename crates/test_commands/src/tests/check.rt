use crate::tests::{CALL, Case, check_all, check_over};
use std::process::Abort;
use std::sync::Wait;
use std::thread::Threads;
use test_texts::{CHAIN, PAYMENTS_JOB, RING};

const CHECK: Case<'static> = Case {
    files: &[("job.toml", CHAIN)],
    line: "check job.toml",
    ..CALL
};

/// Jobs, and the line of their sizes.
static SIZES: [Case<'static>; 2] = [
    Case {
        out: "nodes 3 edges 2 workers 2 weight 2\n",
        ..CHECK
    },
    Case {
        files: &[("job.toml", PAYMENTS_JOB)],
        out: "nodes 9 edges 8 workers 8 weight 14\n",
        ..CHECK
    },
];

#[test]
fn sizes_of_jobs(rt: HostRuntime) {
    check_all(&rt, &SIZES);
}

static UNPRINTED: [Case<'static>; 1] = [Case {
    refusing: &[0],
    status: 6,
    ..CHECK
}];

#[test]
fn unprinted_sizes(rt: HostRuntime) {
    check_all(&rt, &UNPRINTED);
}

static REFUSED: [Case<'static>; 1] = [Case {
    files: &[("job.toml", RING)],
    status: 2,
    out: "fault 2 J7 node 0\n",
    ..CHECK
}];

#[test]
fn cycle_is_refused(rt: HostRuntime) {
    check_all(&rt, &REFUSED);
}

const MISSING: Case<'static> = Case {
    files: &[("other.toml", CHAIN)],
    status: 5,
    out: "fault 5 job\n",
    ..CHECK
};

static MISSING_AND_CUT: [Case<'static>; 3] = [
    MISSING,
    Case {
        files: &[],
        line: "check none.toml",
        failed: Some("none.toml"),
        ..MISSING
    },
    Case {
        files: &[("job.toml", "columns = [\"account:t")],
        status: 2,
        out: "fault 2 J1\n",
        ..CHECK
    },
];

static TOO_LONG: Case<'static> = Case {
    status: 9,
    out: "fault 9 job\n",
    ..CHECK
};

#[test]
fn missing_and_cut_files(rt: HostRuntime) {
    check_all(&rt, &MISSING_AND_CUT);
    check_feeds(&rt, 1_048_577, &TOO_LONG);
}

/// Checks a call over a job file of this number of line feeds.
fn check_feeds<R>(rt: &R, count: usize, case: &Case<'_>)
where
    R: AllocGlobal + Abort + Threads + Wait + Copy + Send + Sync + 'static,
{
    let text = "\n".repeat(rt.alloc(), count).expect(rt, "memory");
    check_over(rt, &[("job.toml", text.as_str())], case);
}

static LONGEST: Case<'static> = Case {
    status: 2,
    out: "fault 2 J2 columns\n",
    ..CHECK
};

#[test]
fn the_longest_file(rt: HostRuntime) {
    check_feeds(&rt, 1_048_576, &LONGEST);
}
