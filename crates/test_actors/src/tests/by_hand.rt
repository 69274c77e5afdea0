// Workers that are driven turn by turn.
ghost use Rattle.std.specs.Prelude.{◌≡◌, [], IfOk, IfSome, OnOk};
ghost use Rattle.flow_model.specs.Setup.{setup_view};
ghost use Rattle.flow_model.specs.Begin.{at_first};
ghost use Rattle.flow_worker.specs.Worker.{IsWorker};
ghost use Rattle.test_actors.specs.Crews.{AreLawfulWorkers};

use crate::tests::control::{Control, controls_of};
use crate::tests::fed::FedLane;
use crate::tests::real_setups::setup_of;
use crate::tests::turns::turn_at;
use crate::tests::watch::Watch;
use flow_crew::Crew;
use flow_model::Setup;
use flow_worker::{Opened, Parts, Turn, Worker};
use lane_core::{Lanes, QueueLanes};
use sink_journal::{Entry, Journal};
use std::alloc::Global;
use tuple_trace::{Births, Fields, Gate, Items, NoMemory, Tuple, Value, Visits};

const JOB: &str = r#"
columns = ["amount:cents"]
[[node]]
name = "card"
kind = "source"
[[node]]
name = "some"
kind = "filter"
when = [["amount", ">=", 100]]
[[node]]
name = "big"
kind = "filter"
when = [["amount", ">=", 1000]]
[[node]]
name = "out"
kind = "sink"
columns = ["amount"]
[[edge]]
from = "card"
to = "some"
[[edge]]
from = "some"
to = "big"
[[edge]]
from = "big"
to = "out"
"#;

/// One request changes both filters: `some` is its head, and the edge from `some` to `big` is
/// covered.
const REQUESTS: &str = r#"
[[request]]
after = 3
[[request.change]]
node = "some"
from = 0
kind = "filter"
when = [["amount", ">=", 50]]
[[request.change]]
node = "big"
from = 0
kind = "filter"
when = [["amount", ">=", 60]]
"#;

/// What the driver does, and what it has to see.
#[derive(Clone, Copy)]
enum Step {
    /// Feeds a row with this amount: whether the lane has room.
    Feed(u64, i64, bool),
    /// Feeds the end: whether the lane has room.
    End(bool),
    /// Posts the next due to the worker with this number: whether it has turned the one before.
    Post(usize, bool),
    /// Lets this worker take a turn: its outcome.
    Turn(usize, Turn),
}

const SOME: usize = 0;

const BIG: usize = 1;

const OUT: usize = 2;

/// Over lanes of capacity 1. `some` fills the lane to `big`, and turns at its post in spite of the
/// tuple in its hand and of its waiting output. Its marker goes behind that output, and `big` turns
/// at the marker in spite of its own waiting output.
const SCRIPT: [Step; 32] = [
    Step::Turn(SOME, Turn::Idle),
    Step::Feed(1, 2000, true),
    Step::Feed(2, 3000, false),
    Step::Turn(SOME, Turn::Moved),
    Step::Feed(2, 3000, true),
    Step::Turn(SOME, Turn::Moved),
    Step::Feed(3, 70, true),
    Step::Turn(SOME, Turn::Moved),
    Step::Turn(SOME, Turn::Idle),
    Step::Post(SOME, true),
    Step::Post(SOME, false),
    Step::Turn(SOME, Turn::Moved),
    Step::Turn(SOME, Turn::Idle),
    Step::Turn(BIG, Turn::Moved),
    Step::Turn(SOME, Turn::Moved),
    Step::Turn(BIG, Turn::Moved),
    Step::Turn(SOME, Turn::Moved),
    Step::Turn(BIG, Turn::Moved),
    Step::Turn(BIG, Turn::Idle),
    Step::Turn(SOME, Turn::Moved),
    Step::Turn(BIG, Turn::Moved),
    Step::Turn(OUT, Turn::Moved),
    Step::Turn(BIG, Turn::Moved),
    Step::End(true),
    Step::Turn(SOME, Turn::Moved),
    Step::Turn(SOME, Turn::Done),
    Step::Turn(OUT, Turn::Moved),
    Step::Turn(BIG, Turn::Moved),
    Step::Turn(OUT, Turn::Moved),
    Step::Turn(BIG, Turn::Done),
    Step::Turn(OUT, Turn::Done),
    Step::Turn(OUT, Turn::Done),
];

/// The journals that it leaves: `m` for a tuple of this row, `k` for the marker of a request, `t`
/// for its turn, `e` for the end of a lane.
const JOURNALS: [&[(char, u64)]; 3] = [
    &[('m', 1), ('m', 2), ('t', 1), ('m', 3), ('e', 0)],
    &[('m', 1), ('m', 2), ('k', 1), ('t', 1), ('m', 3), ('e', 1)],
    &[('m', 1), ('m', 2), ('m', 3), ('e', 2)],
];

/// How many tuples pass the gate at each node.
const PASSED: [u64; 4] = [0, 3, 3, 3];

#[derive(Drop)]
struct Driven<L: Lanes> {
    workers: Vec<Worker<L>>,
    controls: Vec<Control>,
    fed: FedLane<L>,
    need: L::Need,
}

fn tuple(alloc: Global, row: u64, cents: i64) -> Result<Tuple, NoMemory>
    ensures { IfOk result (λ tuple. tuple.trace ≡ []) }
{
    let mut fields = Items::new(alloc);
    fields.push(Value::Num(cents))?;
    Ok(Tuple {
        row,
        birth: Births::new(alloc),
        issued: 0,
        fields: Fields::own(fields),
        trace: Visits::new(alloc),
    })
}

// Whether the step goes as it has to.
fn take_step<L: Lanes, G: Gate>(
    alloc: Global,
    driven: &mut Driven<L>,
    setup: &Setup,
    gate: &G,
    step: Step,
) -> Result<bool, NoMemory>
    requires { AreLawfulWorkers (setup_view setup.now) driven.old.workers.items }
    ensures { OnOk result (AreLawfulWorkers (setup_view setup.now) driven.new.workers.items) }
{
    match step {
        Step::Feed(row, cents, has_room) => {
            let tuple = tuple(alloc, row, cents)?;
            Ok(driven.fed.feed(&mut driven.need, tuple) == has_room)
        }
        Step::End(has_room) => Ok(driven.fed.end(&mut driven.need) == has_room),
        Step::Post(worker, is_ready) => Ok(nth_worker(&mut driven.controls, worker) == is_ready),
        Step::Turn(worker, outcome) => {
            if worker >= driven.workers.len() {
                return Ok(false);
            }
            Ok(turn_at(&mut driven.workers, &mut driven.need, setup, gate, worker) == outcome)
        }
    }
}

fn nth_worker(controls: &mut [Control], worker: usize) -> bool {
    match controls.get_mut(worker) {
        Some(control) => control.post(),
        None => false,
    }
}

// The place of the first step that goes otherwise, or none.
fn first_wrong<L: Lanes, G: Gate>(
    alloc: Global,
    driven: &mut Driven<L>,
    setup: &Setup,
    gate: &G,
    script: &[Step],
) -> Result<Option<usize>, NoMemory>
    requires { AreLawfulWorkers (setup_view setup.now) driven.old.workers.items }
    ensures { OnOk result (AreLawfulWorkers (setup_view setup.now) driven.new.workers.items) }
{
    for (place, step) in script.iter().enumerate() {
        if !take_step(alloc, driven, setup, gate, *step)? {
            return Ok(Some(place));
        }
    }
    Ok(None)
}

fn finish_one<L: Lanes, G: Gate>(
    mut worker: Worker<L>,
    need: &mut L::Need,
    setup: &Setup,
    gate: &G,
) -> Option<Opened>
    requires { IsWorker (setup_view setup.now) (at_first (setup_view setup.now)) worker }
{
    match worker.turn(need, setup, gate) {
        Turn::Done => {
            let Parts { worked, .. } = worker.finish();
            Some(worked.open())
        }
        _ => None,
    }
}

fn is_entry(entry: &Entry, wanted: (char, u64)) -> bool {
    match entry {
        Entry::Met { tuple, .. } => wanted == ('m', tuple.row),
        Entry::Marked { request, .. } => wanted == ('k', *request),
        Entry::Turned { request } => wanted == ('t', *request),
        Entry::Ended { lane } => wanted == ('e', u64::from(*lane)),
    }
}

fn is_journal(journal: &Journal, wanted: &[(char, u64)]) -> bool {
    let entries = journal.as_slice();
    let mut same = entries.len() == wanted.len();
    for (entry, wanted) in entries.iter().zip(wanted) {
        same &= is_entry(entry, *wanted);
    }
    same
}

// Whether the workers are done and leave these journals.
fn leave_journals<L: Lanes, G: Gate>(
    workers: Vec<Worker<L>>,
    need: &mut L::Need,
    setup: &Setup,
    gate: &G,
) -> bool
    requires { AreLawfulWorkers (setup_view setup.now) workers.items }
{
    let mut seen = 0;
    for worker in workers {
        match (finish_one(worker, need, setup, gate), JOURNALS.get(seen)) {
            (Some(opened), Some(wanted)) => {
                if !is_journal(&opened.journal, wanted) {
                    return false;
                }
            }
            _ => return false,
        }
        seen += 1;
    }
    seen == JOURNALS.len()
}

/// How a run by hand went.
#[derive(Clone, Copy, Debug, PartialEq, Eq)]
enum Went {
    NoSetup,
    WrongStep(usize),
    WrongJournals,
    WrongGate,
    Well,
}

// The workers of the setup over lanes of capacity 1, and all that drives them. None if the feeder
// has no lane.
fn driven_of<L: Lanes>(
    alloc: Global,
    form: &L,
    setup: &Setup,
) -> Result<Option<Driven<L>>, NoMemory>
    ensures { IfOk result (λ made. IfSome made (λ driven.
        AreLawfulWorkers (setup_view setup.now) driven.workers.items)) }
{
    let Crew {
        workers,
        posters,
        outs,
    } = Crew::make(alloc, form, setup, 1)?;
    let controls = controls_of(alloc, posters)?;
    let Some(fed) = FedLane::last_of(&setup.job, outs) else {
        return Ok(None);
    };
    Ok(Some(Driven {
        workers,
        controls,
        fed,
        need: form.need(),
    }))
}

// How the workers went that followed the script.
fn left_by<L: Lanes>(driven: Driven<L>, setup: &Setup, gate: &Watch) -> Went
    requires { AreLawfulWorkers (setup_view setup.now) driven.workers.items }
{
    let Driven {
        workers,
        mut need,
        ..
    } = driven;
    if !leave_journals(workers, &mut need, setup, gate) {
        return Went::WrongJournals;
    }
    if gate.saw(PASSED) {
        Went::Well
    } else {
        Went::WrongGate
    }
}

fn follow<L: Lanes>(alloc: Global, driven: Driven<L>, setup: &Setup) -> Result<Went, NoMemory>
    requires { AreLawfulWorkers (setup_view setup.now) driven.workers.items }
{
    let mut driven = driven;
    let gate = Watch::new();
    match first_wrong(alloc, &mut driven, setup, &gate, &SCRIPT)? {
        Some(place) => Ok(Went::WrongStep(place)),
        None => Ok(left_by(driven, setup, &gate)),
    }
}

fn drive<L: Lanes>(alloc: Global, form: &L, setup: &Setup) -> Result<Went, NoMemory> {
    match driven_of(alloc, form, setup)? {
        Some(driven) => follow(alloc, driven, setup),
        None => Ok(Went::NoSetup),
    }
}

fn drive_from_texts<L: Lanes>(alloc: Global, form: &L) -> Result<Went, NoMemory> {
    match setup_of(alloc, JOB, REQUESTS) {
        Some(setup) => drive(alloc, form, &setup),
        None => Ok(Went::NoSetup),
    }
}

#[test]
fn full_lanes_a_post_a_marker_and_the_end(rt: HostRuntime) {
    let went = drive_from_texts(rt.alloc(), &QueueLanes::new(rt)).ok();
    assert_eq!(rt; went, Some(Went::Well));
}
