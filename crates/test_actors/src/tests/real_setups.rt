// Workers of whole jobs.
ghost use Rattle.flow_model.specs.Begin.{at_first};
ghost use Rattle.flow_model.specs.Setup.{setup_view};
ghost use Rattle.flow_worker.specs.Worker.{IsWorker};
ghost use Rattle.test_actors.specs.Crews.{AreLawfulWorkers};

use flow_crew::Crew;
use flow_model::Setup;
use flow_worker::{Turn, Worker};
use lane_core::{Lanes, QueueLanes};
use std::alloc::Global;
use test_runs::job_of;
use test_texts::{PAYMENTS_JOB, PAYMENTS_REQUESTS};
use tuple_trace::{NoMemory, OpenGate};

/// A split with three workers above a replicate with two, both above two maps.
const SPLIT: &str = r#"
columns = ["tags:text", "amount:cents"]
[[node]]
name = "card"
kind = "source"
[[node]]
name = "cut"
kind = "split"
workers = 3
on = "tags"
by = ";"
most = 4
[[node]]
name = "both"
kind = "replicate"
workers = 2
[[node]]
name = "left"
kind = "map"
steps = []
[[node]]
name = "right"
kind = "map"
steps = []
[[node]]
name = "out"
kind = "sink"
columns = ["tags"]
[[edge]]
from = "card"
to = "cut"
[[edge]]
from = "cut"
to = "both"
[[edge]]
from = "both"
to = "left"
port = 0
[[edge]]
from = "both"
to = "right"
port = 1
[[edge]]
from = "left"
to = "out"
[[edge]]
from = "right"
to = "out"
"#;

const SPLIT_REQUESTS: &str = r#"
[[request]]
after = 1
[[request.change]]
node = "left"
from = 0
kind = "map"
steps = [["amount", "add", "amount", 1]]
"#;

/// Reads a job and its requests. Returns `None` if either has a fault, or memory ran out.
pub fn setup_of(alloc: Global, job: &str, requests: &str) -> Option<Box<Setup>> {
    test_runs::setup_of(alloc, job_of(alloc, job)?, requests, false)
}

// Whether the worker has nothing to do in its first turn.
fn is_idle<L: Lanes>(mut worker: Worker<L>, need: &mut L::Need, setup: &Setup) -> bool
    requires { IsWorker (setup_view setup.now) (at_first (setup_view setup.now)) worker }
{
    worker.turn(need, setup, &OpenGate) == Turn::Idle
}

fn are_idle<L: Lanes>(workers: Vec<Worker<L>>, need: &mut L::Need, setup: &Setup) -> bool
    requires { AreLawfulWorkers (setup_view setup.now) workers.items }
{
    let mut idle = true;
    for worker in workers {
        idle &= is_idle(worker, need, setup);
    }
    idle
}

// How many workers a job has, if each of them has nothing to do in its first turn.
fn idle_workers<L: Lanes>(
    alloc: Global,
    form: &L,
    setup: &Setup,
) -> Result<Option<usize>, NoMemory> {
    let Crew { workers, .. } = Crew::make(alloc, form, setup, 16)?;
    let count = workers.len();
    if are_idle(workers, &mut form.need(), setup) {
        Ok(Some(count))
    } else {
        Ok(None)
    }
}

fn workers_of<L: Lanes>(alloc: Global, form: &L, job: &str, requests: &str) -> Option<usize> {
    let setup = setup_of(alloc, job, requests)?;
    workers_in(alloc, form, &setup)
}

fn workers_in<L: Lanes>(alloc: Global, form: &L, setup: &Setup) -> Option<usize> {
    idle_workers(alloc, form, setup).ok()?
}

/// A job, its requests, and the number of its workers.
const SETUPS: [(&str, &str, usize); 2] = [
    (PAYMENTS_JOB, PAYMENTS_REQUESTS, 8),
    (SPLIT, SPLIT_REQUESTS, 8),
];

#[test]
fn workers_of_real_setups(rt: HostRuntime) {
    let form = QueueLanes::new(rt);
    for (job, requests, workers) in SETUPS {
        assert_eq!(rt; workers_of(rt.alloc(), &form, job, requests), Some(workers));
    }
}
