// The settling of all lanes, one after another, from the last to the first.
ghost use Rattle.std.specs.Prelude.{◌≡◌, ◌<◌, ◌∷◌, [], IfNone, IfSome, OnOk, Some, length, map};
ghost use Rattle.flow_model.specs.Setup.{setup_view};
ghost use Rattle.flow_crew.specs.Sides.{AreMatched, AreSettled, HaveAllLanes, ins_at, outs_at};
ghost use Rattle.flow_crew.specs.Sorted.{changed_at, more_in, more_out, with_fed, with_out};

use crate::Side;
use flow_model::Setup;
use lane_core::Lanes;
use std::alloc::Global;
use tuple_trace::NoMemory;

/// Settles each lane of the setup's job. `sides` are the endpoints of the workers, in their order,
/// and `feeder` are the sending endpoints of the feeder, in the order of the lanes' numbers.
///
/// The one error is out of memory. It gives all endpoints up.
pub fn settle_all<L: Lanes>(
    alloc: Global,
    form: &L,
    need: &mut L::Need,
    setup: &Setup,
    sides: Vec<Side<L>>,
    feeder: Vec<L::Tx>,
) -> Result<(), NoMemory>
    requires lanes { HaveAllLanes (setup_view setup.now).job sides.items
        (map L.Tx.state feeder.items) }
    requires matched { AreMatched sides.items (map L.Tx.state feeder.items) }
    ensures { OnOk result (AreSettled (setup_view setup.now).job sides.items
        (map L.Tx.state feeder.items)) }
{
    let mut sides = sides;
    let mut feeder = feeder;
    let mut number = setup.topology.lanes.len() as u32;
    while number > 0 {
        number -= 1;
        let lane = setup.lane(number);
        let Some(tx) = take_out(&mut sides, &mut feeder, lane.sender) else {
            unreachable!()
        };
        let Some(rx) = take_in(&mut sides, lane.receiver) else {
            unreachable!()
        };
        form.settle(alloc, need, tx, rx)?;
    }
    Ok(())
}

// Removes the last sending endpoint of a worker, or of the feeder.
fn take_out<L: Lanes>(
    sides: &mut [Side<L>],
    feeder: &mut Vec<L::Tx>,
    sender: Option<u32>,
) -> Option<L::Tx>
    requires { IfSome sender (λ worker. worker < length sides.old) }
    ensures sides { IfSome result (λ tx. sides.old
        ≡ with_out sender (L.Tx.state tx ∷ []) sides.new) }
    ensures feeder { IfSome result (λ tx. map L.Tx.state feeder.old.items
        ≡ with_fed sender (L.Tx.state tx ∷ []) (map L.Tx.state feeder.new.items)) }
    ensures none { IfNone result (outs_at sender sides.old
        (map L.Tx.state feeder.old.items) ≡ []) }
{
    match sender {
        Some(worker) => take_out_at(sides, worker),
        None => feeder.pop(),
    }
}

fn take_out_at<L: Lanes>(sides: &mut [Side<L>], worker: u32) -> Option<L::Tx>
    requires { worker < length sides.old }
    ensures some { IfSome result (λ tx. sides.old
        ≡ changed_at (more_out (L.Tx.state tx ∷ [])) worker sides.new) }
    ensures none { IfNone result (outs_at (Some worker) sides.old [] ≡ []) }
{
    sides[worker as usize].pop_out()
}

// Removes the last receiving endpoint of a worker.
fn take_in<L: Lanes>(sides: &mut [Side<L>], worker: u32) -> Option<L::Rx>
    requires { worker < length sides.old }
    ensures some { IfSome result (λ rx. sides.old
        ≡ changed_at (more_in (L.Rx.state rx ∷ [])) worker sides.new) }
    ensures none { IfNone result (ins_at worker sides.old ≡ []) }
{
    sides[worker as usize].pop_in()
}
