// What a finished worker hands back, and the lanes that a new one is made of.
ghost use Rattle.std.specs.Prelude.{◌≡◌, ◌<◌, ◌≤◌, [], length, map};
ghost use Rattle.std.specs.Vec.{vec_capacity};
ghost use Rattle.marker_align.specs.declared.held.Hand.TheVariants.{Empty};
ghost use Rattle.flow_model.specs.Lanes.{lanes};
ghost use Rattle.flow_model.specs.Setup.{setup_view};
ghost use Rattle.flow_worker.specs.Endpoints.{LaneInIs, LaneOutIs};
ghost use Rattle.flow_worker.specs.Pairs.{EachOne};
ghost use Rattle.flow_worker.specs.Parts.{endpoint_in, endpoint_out};
ghost use Rattle.flow_worker.specs.Worker.{IsOnLane};

use crate::lane_in::LaneIn;
use crate::lane_out::LaneOut;
use flow_model::Setup;
use keyed_state::Keyed;
use lane_core::Lanes;
use sink_journal::Journal;
use std::alloc::Global;
use std::marker::{Model, PhantomData};

/// What a finished worker leaves. Only [`crate::Worker::finish`] makes one, and it can't be copied.
/// So its journal and counts come from the turns of a worker over lanes of this form.
#[derive(Drop)]
pub struct Worked<L: Lanes> {
    number: u32,
    journal: Journal,
    state: Keyed,
    of: PhantomData<L>,
}

impl<L: Lanes> Model for Worked<L> {
    ghost use Rattle.std.specs.Coded.{codes};
    ghost use Rattle.flow_worker.specs.Parts.{WorkedIs};
    ghost use Rattle.keyed_state.specs.Counts.{counts_code};

    ghost Value = { WorkedIs };

    ghost coded = { Prim.hlevel (codes, counts_code) };

    ghost view = { λ w. record { number = w.number; journal = w.journal; state = w.state } };
}

/// The journal and the counts of a finished worker, open to use.
#[derive(Drop)]
pub struct Opened {
    /// What the worker did, in order.
    pub journal: Journal,
    /// Its counts at the end.
    pub state: Keyed,
}

impl<L: Lanes> Worked<L> {
    pub(crate) fn of(number: u32, journal: Journal, state: Keyed) -> Worked<L>
        ensures { result ≡ record { number = number; journal = journal; state = state } }
    {
        Worked {
            number,
            journal,
            state,
            of: PhantomData,
        }
    }

    /// Returns the journal and the counts. Takes no memory.
    pub fn open(self) -> Opened
        ensures { result ≡ record { journal = self.journal; state = self.state } }
    {
        let Worked { journal, state, .. } = self;
        Opened { journal, state }
    }
}

/// A finished worker, and the endpoints that it was made of.
#[derive(Drop)]
pub struct Parts<L: Lanes> {
    /// What the worker leaves.
    pub worked: Worked<L>,
    /// The receiving endpoints, in the order of [`crate::Worker::make`].
    pub ins: Vec<L::Rx>,
    /// The sending endpoints, in the order of [`crate::Worker::make`].
    pub outs: Vec<L::Tx>,
}

/// Returns the endpoints of the lanes in, in order. Takes no memory but that of `spare`.
pub fn part_ins<L: Lanes>(ins: Vec<LaneIn<L>>, spare: Vec<L::Rx>) -> Vec<L::Rx>
    requires empty { spare.items ≡ [] }
    requires room { length ins.items ≤ vec_capacity spare }
    ensures { map L.Rx.state result.items ≡ map endpoint_in ins.items }
{
    let mut ends = spare;
    for lane in ins {
        ends.push_reserved(lane.end());
    }
    ends
}

/// Returns the endpoints of lanes out on which nothing waits, in order.
/// Takes no memory but that of `spare`.
pub fn part_outs<L: Lanes>(outs: Vec<LaneOut<L>>, spare: Vec<L::Tx>) -> Vec<L::Tx>
    requires empty { spare.items ≡ [] }
    requires room { length outs.items ≤ vec_capacity spare }
    requires done { EachOne (λ (out : LaneOutIs). out.waiting ≡ []) outs.items }
    ensures { map L.Tx.state result.items ≡ map endpoint_out outs.items }
{
    let mut ends = spare;
    for lane in outs {
        ends.push_reserved(lane.end());
    }
    ends
}

/// Makes the lanes in of these endpoints, which have these numbers, with empty hands.
/// Takes no memory but that of `room`.
pub fn new_ins<L: Lanes>(
    setup: &Setup,
    ends: Vec<L::Rx>,
    numbers: &[u32],
    room: Vec<LaneIn<L>>,
) -> Vec<LaneIn<L>>
    requires empty { room.items ≡ [] }
    requires room { length ends.items ≤ vec_capacity room }
    requires numbers { map (λ x. (L.Rx.state x).number) ends.items ≡ numbers.now }
    requires there { EachOne (λ n. n < length (lanes (setup_view setup.now).job)) numbers.now }
    ensures ends { map endpoint_in result.items ≡ map L.Rx.state ends.items }
    ensures edges { EachOne (λ (a : LaneInIs). IsOnLane (setup_view setup.now).job a.number a.edge)
        result.items }
    ensures hands { EachOne (λ (a : LaneInIs). a.hand ≡ Empty) result.items }
{
    let mut ins = room;
    for end in ends {
        let number = numbers[ins.len()];
        let edge = setup.lane(number).edge;
        ins.push_reserved(LaneIn::new(end, number, edge));
    }
    ins
}

/// Makes the lanes out of these endpoints, which have these numbers. Nothing waits on them.
/// Takes no memory but that of `room`.
pub fn new_outs<L: Lanes>(
    alloc: Global,
    setup: &Setup,
    ends: Vec<L::Tx>,
    numbers: &[u32],
    room: Vec<LaneOut<L>>,
) -> Vec<LaneOut<L>>
    requires empty { room.items ≡ [] }
    requires room { length ends.items ≤ vec_capacity room }
    requires numbers { map (λ x. (L.Tx.state x).number) ends.items ≡ numbers.now }
    requires there { EachOne (λ n. n < length (lanes (setup_view setup.now).job)) numbers.now }
    ensures ends { map endpoint_out result.items ≡ map L.Tx.state ends.items }
    ensures edges { EachOne (λ (out : LaneOutIs). IsOnLane (setup_view setup.now).job out.number
        out.edge)
        result.items }
    ensures waiting { EachOne (λ (out : LaneOutIs). out.waiting ≡ []) result.items }
{
    let mut outs = room;
    for end in ends {
        let edge = setup.lane(numbers[outs.len()]).edge;
        outs.push_reserved(LaneOut::new(alloc, end, edge));
    }
    outs
}
