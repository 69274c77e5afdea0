// Under which setup a run is recorded.
ghost use Rattle.std.specs.Prelude.{◌≡◌, ◌+◌, ◌<◌, ◌++◌, ◌∷◌, [], IfOk, OnOk, length, true};
ghost use Rattle.flow_model.specs.Setup.{setup_view};
ghost use Rattle.flow_model.specs.Waiting.{waiting_for};
ghost use Rattle.coordinator.specs.Feeding.{AreRising, issue_rows as issue_rows_of};
ghost use Rattle.coordinator.specs.Live.{fed_in};
ghost use Rattle.flow_engine.specs.Recorded.{IsRecorded};

use coordinator::Feeding;
use flow_model::Setup;
use lane_core::Lanes;
use sink_journal::{Feed, Feeds};
use std::alloc::Global;
use std::mem;
use tuple_trace::NoMemory;
use versions::Refusals;

/// The setup under which a run is recorded that had a feeder of this form and this feed. It is the
/// setup itself, unless the feeder is live. The one error is out of memory.
pub fn recorded_by<L: Lanes, F: Feeding<L>>(
    alloc: Global,
    setup: Setup,
    feeds: &Feeds,
) -> Result<Setup, NoMemory>
    requires one_each { F.LIVE ≡ true → length (issue_rows_of 0 feeds.now)
        ≡ length (setup_view setup).requests }
    requires rising { F.LIVE ≡ true → AreRising 0 (issue_rows_of 0 feeds.now) }
    ensures { IfOk result (λ made. IsRecorded F.LIVE feeds.now setup made) }
{
    if F::LIVE {
        let waits = issue_rows(alloc, feeds)?;
        Ok(with_waits(alloc, setup, &waits))
    } else {
        Ok(setup)
    }
}

// The setup with its requests waiting for these rows. Takes no memory.
fn with_waits(alloc: Global, setup: Setup, waits: &[u64]) -> Setup
    requires one_each { length waits.now ≡ length (setup_view setup).requests }
    requires rising { AreRising 0 waits.now }
    ensures view { setup_view result ≡ waiting_for waits.now (setup_view setup) }
    ensures refused { result.judged.refused ≡ setup.judged.refused }
{
    let mut setup = setup;
    let refused = mem::replace(&mut setup.judged.refused, Refusals::new(alloc));
    let mut made = setup.waiting_for(waits);
    made.judged.refused = refused;
    made
}

// The number of rows before each request of a feed.
fn issue_rows(alloc: Global, feeds: &Feeds) -> Result<Vec<u64>, NoMemory>
    ensures { IfOk result (λ waits. waits.items ≡ issue_rows_of 0 feeds.now) }
{
    let mut waits = Vec::new(alloc);
    let mut fed = 0;
    for feed in feeds.as_slice() {
        fed = note(*feed, fed, &mut waits)?;
    }
    Ok(waits)
}

// Notes an entry of a feed after `fed` rows: a request gets their number. Returns how many rows
// there are then.
fn note(feed: Feed, fed: u64, waits: &mut Vec<u64>) -> Result<u64, NoMemory>
    requires { fed < 18446744073709551615 }
    ensures fed { IfOk result (λ now. now ≡ fed + fed_in (feed ∷ [])) }
    ensures waits { OnOk result (waits.new.items ≡ waits.old.items
        ++ issue_rows_of fed (feed ∷ [])) }
{
    match feed {
        Feed::Fed(_) => Ok(fed + 1),
        Feed::Issued(_) => {
            waits.push(fed)?;
            Ok(fed)
        }
        Feed::Stopped => Ok(fed),
    }
}
