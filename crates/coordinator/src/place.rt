// The places of the lanes of the sources among each other.
ghost use Rattle.std.specs.Prelude.{◌≡◌, ◌<◌, ◌≤◌, ◌+◌, ◌-◌, ◌^◌, suc, IfOk, None, Some};
ghost use Rattle.std.specs.Prelude.{if◌then◌else◌, slice_get};
ghost use Rattle.jobs.specs.Nodes.{IsSourceOf};
ghost use Rattle.flow_model.specs.Lanes.{is_same_sender, lane_of as lane_to};
ghost use Rattle.flow_model.specs.Setup.{setup_view};
ghost use Rattle.flow_model.specs.declared.topology.Lane.{Lane as LaneIs};
ghost use Rattle.coordinator.specs.Feeding.{fed_lanes, places_after, places_of};

use flow_model::{Lane, Setup, WorkerAt};
use std::alloc::Global;
use tuple_trace::{NoMemory, Tuple};

/// For each of these lanes, how many earlier ones begin at a source.
pub fn places_of(alloc: Global, lanes: &[Lane]) -> Result<Vec<usize>, NoMemory>
    ensures { IfOk result (λ places. places.items ≡ places_after 0 lanes.now) }
{
    let mut places = Vec::new(alloc);
    let mut place = 0;
    for lane in lanes {
        places.push(place)?;
        place = next_place(place, lane);
    }
    Ok(places)
}

fn next_place(place: usize, lane: &Lane) -> usize
    requires { place < 2 ^ 64 - 1 }
    ensures value { result ≡ (if is_same_sender None lane.now.sender then suc place else place) }
    ensures near { result ≤ place + 1 }
{
    match lane.sender {
        None => place + 1,
        Some(_) => place,
    }
}

/// The place, among the lanes of the sources, of the lane of a row that enters by this source.
/// Takes no memory.
pub fn place_of(setup: &Setup, places: &[usize], source: u32, tuple: &Tuple) -> usize
    requires source { IsSourceOf (setup_view setup.now).job source }
    requires places { places.now ≡ places_of (setup_view setup.now).job }
    ensures { (lane : LaneIs)
        × (lane_to (setup_view setup.now).job None source 0 tuple.now ≡ Some lane)
        × (slice_get (fed_lanes (setup_view setup.now).job) result ≡ Some lane) }
{
    let feeder = WorkerAt {
        node: source,
        place: 0,
    };
    match setup.topology.route(&setup.job, feeder, 0, tuple) {
        Some(number) => places[number as usize],
        None => unreachable!(),
    }
}
