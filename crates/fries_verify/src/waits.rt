// A setup whose requests wait for the rows that an audit shows.
ghost use Rattle.std.specs.Prelude.{◌≡◌, ◌≤◌, length};
ghost use Rattle.flow_model.specs.Setup.{setup_view};
ghost use Rattle.flow_model.specs.Waiting.{waiting_for, with_afters as with_afters_of};
ghost use Rattle.versions.specs.Kept.{AreInOrder};

use flow_model::Setup;
use versions::{Judged, Requests};

/// The setup with its requests, in their order, waiting for these rows. As
/// [`Setup::waiting_for`], and says that its job and what judging refused stay. Takes no memory.
pub(crate) fn with_waits(setup: Setup, waits: &[u64]) -> Setup
    requires one_each { length waits.now ≡ length (setup_view setup).requests }
    requires in_order { AreInOrder 0 (with_afters_of waits.now (setup_view setup).requests) }
    ensures view { setup_view result ≡ waiting_for waits.now (setup_view setup) }
    ensures job { result.job ≡ setup.job }
    ensures refused { result.judged.refused ≡ setup.judged.refused }
{
    let Setup {
        job,
        topology,
        judged,
        plans,
        splits,
        ordered,
    } = setup;
    let Judged { accepted, refused } = judged;
    let accepted = with_afters(accepted, waits);
    Setup {
        job,
        topology,
        judged: Judged { accepted, refused },
        plans,
        splits,
        ordered,
    }
}

fn with_afters(requests: Requests, waits: &[u64]) -> Requests
    requires { length waits.now ≤ length requests }
    ensures { result ≡ with_afters_of waits.now requests }
{
    let mut requests = requests.into_vec();
    for place in 0..waits.len() {
        requests[place].after = waits[place];
    }
    Requests::from_vec(requests)
}
