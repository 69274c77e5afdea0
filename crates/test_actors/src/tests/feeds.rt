ghost use Rattle.std.specs.Prelude.{◌≡◌, ℕ, [], IfOk, Some, length, slice_get};
ghost use Rattle.control_box.specs.Endpoints.{PosterIs};
ghost use Rattle.jobs.specs.Nodes.{AreFromSources};
ghost use Rattle.flow_model.specs.Begin.{Begin};
ghost use Rattle.flow_model.specs.Setup.{setup_view};
ghost use Rattle.coordinator.specs.Feeding.{IsFeeder};

use control_box::{Owner, Poster, make_box};
use coordinator::{FeedTurn, Feeder, Feeding};
use flow_crew::AllEndpoints;
use flow_model::Setup;
use lane_core::{Lanes, QueueLanes};
use live_control::{LiveFeeder, line};
use sink_journal::{Feed, Feeds};
use std::alloc::Global;
use std::sync::Wait;
use test_runs::{Case, Inputs};
use test_texts::{AFTER_2, AMOUNT_CHAIN, FOUR_AMOUNTS, TWICE_AFTER_3};
use tuple_trace::{FeedRows, NoMemory, OpenGate};

type Boxes = (Vec<Poster>, Vec<Owner>);

/// New boxes, one for each worker.
fn make_boxes(alloc: Global, workers: u32) -> Result<Boxes, NoMemory>
    ensures many { IfOk result (λ boxes. length boxes.0.items ≡ workers) }
    ensures unused { IfOk result (λ boxes. (w : ℕ) (p : PosterIs)
        → slice_get boxes.0.items w ≡ Some p → (p.posted ≡ 0) × (p.loads ≡ [])) }
{
    let mut posters = Vec::new(alloc);
    let mut owners = Vec::new(alloc);
    for _worker in 0..workers {
        let (poster, owner) = make_box(alloc)?;
        posters.push(poster)?;
        owners.push(owner)?;
    }
    Ok((posters, owners))
}

/// Lets the owner turn the due that is posted, if there is one.
fn acknowledge(owner: &mut Owner) {
    let posted = owner.poll();
    let turned = owner.last_turned();
    if turned < posted {
        owner.turned(turned + 1);
    }
}

/// The feed of a feeder that stops within `turns` turns. After each turn each owner turns what is
/// posted to it.
fn feed_of<L: Lanes, F: Feeding<L> + Drop>(
    mut feeder: F,
    need: &mut L::Need,
    setup: &Setup,
    rows: &FeedRows<'_>,
    owners: &mut [Owner],
    turns: u32,
) -> Option<Feeds>
where
    F::Rest: Drop,
    requires law { (begin : Begin) × IsFeeder F.LIVE (setup_view setup.now) begin rows.now
        (F.feeder feeder) }
    requires rows { AreFromSources (setup_view setup.now).job rows.now }
{
    for _turn in 0..turns {
        match feeder.turn(need, setup, rows, &OpenGate) {
            FeedTurn::Done => {
                let (parts, _rest) = feeder.finish();
                return Some(parts.feeds);
            }
            FeedTurn::Moved | FeedTurn::Idle | FeedTurn::NoMemory => {}
        }
        for worker in 0..owners.len() {
            acknowledge(&mut owners[worker]);
        }
    }
    None
}

/// The feed of the rows, over lanes of this form, by a feeder that is made of a seed.
fn fed<L: Lanes, F: Feeding<L> + Drop>(
    alloc: Global,
    form: &L,
    setup: &Setup,
    rows: &FeedRows<'_>,
    seed: F::Seed,
) -> Result<Option<Feeds>, NoMemory>
where
    F::Rest: Drop,
    F::Seed: Drop,
    requires { AreFromSources (setup_view setup.now).job rows.now }
{
    let (posters, mut owners) = make_boxes(alloc, setup.workers())?;
    let AllEndpoints { feeder, .. } = AllEndpoints::make(alloc, form, setup, 64)?;
    let feeder = F::make(alloc, setup, feeder, posters, seed)?;
    let mut need = form.need();
    let owners = owners.as_mut_slice();
    Ok(feed_of::<L, F>(feeder, &mut need, setup, rows, owners, 100))
}

/// The chain and its four payments, with these requests.
pub fn inputs(requests: &str) -> Inputs<'_> {
    Inputs {
        job: AMOUNT_CHAIN,
        requests,
        payments: FOUR_AMOUNTS,
        ordered: false,
    }
}

/// Whether the four payments and these requests are fed so, by a feeder that is made of a seed.
fn has_feed<L: Lanes, F: Feeding<L> + Drop>(
    alloc: Global,
    form: &L,
    requests: &str,
    seed: F::Seed,
    feed: &[Feed],
) -> bool
where
    F::Rest: Drop,
    F::Seed: Drop,
{
    match inputs(requests).read(alloc) {
        Some(case) => feeds_case::<L, F>(alloc, form, &case, seed, feed),
        None => false,
    }
}

fn feeds_case<L: Lanes, F: Feeding<L> + Drop>(
    alloc: Global,
    form: &L,
    case: &Case,
    seed: F::Seed,
    feed: &[Feed],
) -> bool
where
    F::Rest: Drop,
    F::Seed: Drop,
{
    let rows = FeedRows::all(&case.rows);
    match fed::<L, F>(alloc, form, &case.setup, &rows, seed) {
        Ok(Some(feeds)) => feeds.as_slice() == feed,
        Ok(None) | Err(_) => false,
    }
}

#[test]
fn two_requests_after_one_row(rt: HostRuntime) {
    let feed = [
        Feed::Fed(1),
        Feed::Fed(2),
        Feed::Fed(3),
        Feed::Issued(1),
        Feed::Issued(2),
        Feed::Fed(4),
        Feed::Stopped,
    ];
    let form = QueueLanes::new(rt);
    assert!(rt; has_feed::<_, Feeder<_>>(rt.alloc(), &form, TWICE_AFTER_3, (), &feed));
}

/// Whether a live feeder feeds so. A release is told before its first turn, or none ever is.
fn has_live_feed<L: Lanes>(alloc: Global, form: &L, released: bool, feed: &[Feed]) -> bool {
    let Ok((mut teller, inbox)) = line(alloc) else {
        return false;
    };
    if released {
        teller.tell();
    }
    has_feed::<L, LiveFeeder<L>>(alloc, form, AFTER_2, inbox, feed)
}

#[test]
fn release_before_the_start(rt: HostRuntime) {
    let feed = [
        Feed::Fed(1),
        Feed::Fed(2),
        Feed::Issued(1),
        Feed::Fed(3),
        Feed::Fed(4),
        Feed::Stopped,
    ];
    assert!(rt; has_live_feed(rt.alloc(), &QueueLanes::new(rt), true, &feed));
}

#[test]
fn no_release(rt: HostRuntime) {
    let feed = [
        Feed::Fed(1),
        Feed::Fed(2),
        Feed::Fed(3),
        Feed::Fed(4),
        Feed::Issued(1),
        Feed::Stopped,
    ];
    assert!(rt; has_live_feed(rt.alloc(), &QueueLanes::new(rt), false, &feed));
}
