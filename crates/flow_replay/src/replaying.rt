ghost use Rattle.std.specs.Prelude.{◌≡◌, ◌<◌, ◌-◌, ◌^◌, [], IfOk, OnOk, length, map, replicate};
ghost use Rattle.flow_model.specs.Lanes.{lanes, lanes_out, out_numbers};
ghost use Rattle.flow_model.specs.Replay.{put_out};
ghost use Rattle.flow_model.specs.Run.{final_counts};
ghost use Rattle.flow_model.specs.Setup.{setup_view};
ghost use Rattle.flow_model.specs.SetupWorker.{setup_here, who_here};
ghost use Rattle.flow_model.specs.WorkerState.{state_view};
ghost use Rattle.flow_model.specs.Workers.{workers_in};
ghost use Rattle.flow_replay.specs.Sent.{all_sent, begun_counts, begun_view};
ghost use Rattle.flow_replay.specs.inner.Replays.{IsBegun, IsEntered, item_if, reaches};
ghost use Rattle.flow_replay.specs.inner.Replays.{with_item, with_markers, with_puts};

use flow_model::{Setup, SetupWorker, Start, WorkerState};
use keyed_state::Keyed;
use operators::Outs;
use sink_journal::{Entry, Journal};
use std::alloc::Global;
use tuple_trace::{Item, Items, NoMemory};

/// The items of one lane, in order.
pub type LaneItems = Items<Item>;

/// The items of the lanes out of a worker, in the order of the lanes' numbers.
pub type LaneLists = Items<LaneItems>;

/// What the replay of a journal leaves.
#[derive(Debug, Drop)]
pub struct Replayed {
    /// The counts of the worker at the end.
    pub state: Keyed,
    /// What the worker sends on each of its lanes out.
    pub sent: LaneLists,
}

/// Replays a journal of a worker in one pass, from a start on: what its functions make of the
/// tuples that it met, with the changes, markers and ends that the journal says. The journal
/// needn't be lawful.
pub fn replay(
    alloc: Global,
    start: &Start,
    who: SetupWorker<'_>,
    journal: &Journal,
) -> Result<Replayed, NoMemory>
    requires { length start.now.states ≡ length (workers_in (setup_here who).job) }
    ensures state { IfOk result (λ done. done.state ≡ final_counts (setup_here who.entry) start.now
        (who_here who.entry) (begun_counts start.now who.entry.number)
        journal.now) }
    ensures sent { IfOk result (λ done. done.sent ≡ all_sent (setup_here who.entry)
        (who_here who.entry)
        (begun_view (setup_here who.entry) start.now who.entry.number) journal.now) }
{
    let mut replay = Replaying::new(alloc, start, who)?;
    for entry in journal.as_slice() {
        replay.enter(who, entry)?;
    }
    let Replaying { state, lists, .. } = replay;
    let WorkerState { counts, .. } = state;
    Ok(Replayed {
        state: counts,
        sent: LaneLists::from_vec(lists),
    })
}

// The state of a worker at a start, with a copy of its counts.
fn begun_state(start: &Start, who: SetupWorker<'_>) -> Result<WorkerState, NoMemory>
    requires { length start.now.states ≡ length (workers_in (setup_here who).job) }
    ensures { IfOk result (λ state. state_view (setup_here who.entry) (who_here who.entry) state
        ≡ begun_view (setup_here who.entry) start.now who.entry.number) }
{
    let counts = start.states.as_slice()[who.number as usize].copy()?;
    Ok(WorkerState {
        func: who.setup.in_force_after(who.node(), start.turned),
        counts,
        last: who.setup.last_covering(who.number, start.turned),
        ended: 0,
    })
}

/// A worker in the middle of a replay.
#[derive(Drop)]
struct Replaying {
    alloc: Global,
    state: WorkerState,
    /// What was put on each lane out.
    lists: Vec<LaneItems>,
}

impl Replaying {
    fn new(alloc: Global, start: &Start, who: SetupWorker<'_>) -> Result<Replaying, NoMemory>
        requires { length start.now.states ≡ length (workers_in (setup_here who).job) }
        ensures { IfOk result (IsBegun (setup_here who.entry) who.entry.number
            (begun_view (setup_here who.entry) start.now who.entry.number)) }
    {
        let lanes = who.setup.lanes_out(who.number).len();
        Ok(Replaying {
            alloc,
            state: begun_state(start, who)?,
            lists: empty_lists(alloc, lanes)?,
        })
    }

    // Goes on by one entry.
    fn enter(&mut self, who: SetupWorker<'_>, entry: &Entry) -> Result<(), NoMemory>
        requires long { length self.old.lists.items
            ≡ length (out_numbers (setup_here who).job who.number) }
        requires few { self.old.state.ended < 2 ^ 64 - 1 }
        ensures { OnOk result (IsEntered (setup_here who.entry)
            (who_here who.entry) entry.now self.old self.new) }
    {
        let lists = self.lists.as_mut_slice();
        match entry {
            Entry::Met { tuple, .. } => {
                let at = who.setup.worker_at(who.number);
                let mut outs = Outs::new(self.alloc);
                self.state
                    .process(self.alloc, who.setup, at, tuple, &mut outs)?;
                send(who, lists, outs)?;
                Ok(())
            }
            Entry::Marked { .. } => Ok(()),
            Entry::Turned { request } => {
                mark(who, lists, *request)?;
                self.state.turn(who.setup, who.node(), *request);
                Ok(())
            }
            Entry::Ended { .. } => {
                self.state.end_lane();
                if self.state.ended == who.lanes_in().len() as u64 {
                    let sending = Sending {
                        onto: Onto::All,
                        item: Item::Last,
                    };
                    put_on(who, lists, &sending)?;
                }
                Ok(())
            }
        }
    }
}

/// The lanes out that an item is put on.
#[derive(Clone, Copy)]
enum Onto {
    /// The lane with this number.
    Lane(u32),
    /// Those on an edge that the request covers.
    Covered(u64),
    All,
}

/// An item, and the lanes out that it is put on.
#[derive(Drop)]
struct Sending {
    onto: Onto,
    item: Item,
}

// Puts an item on some of the lanes out.
fn put_on(who: SetupWorker<'_>, lists: &mut [LaneItems], sending: &Sending) -> Result<(), NoMemory>
    requires long { length lists.old ≡ length (out_numbers (setup_here who).job who.number) }
    ensures { OnOk result (lists.new ≡ with_item (reaches (setup_here who.entry) sending.now.onto)
        sending.now.item (out_numbers (setup_here who.entry).job who.entry.number) lists.old) }
{
    for (place, number) in who.setup.lanes_out(who.number).iter().enumerate() {
        let list = &mut lists[place];
        put_if(
            list,
            is_reached(who.setup, sending.onto, *number),
            &sending.item,
        )?;
    }
    Ok(())
}

fn put_if(list: &mut LaneItems, reached: bool, item: &Item) -> Result<(), NoMemory>
    ensures { OnOk result (list.new ≡ item_if reached item.now list.old) }
{
    if reached {
        list.push(copy_of(item)?)?;
    }
    Ok(())
}

fn is_reached(setup: &Setup, onto: Onto, number: u32) -> bool
    requires { number < length (lanes (setup_view setup.now).job) }
    ensures { result ≡ reaches (setup_view setup.now) onto number }
{
    match onto {
        Onto::Lane(lane) => number == lane,
        Onto::Covered(request) => setup.covers_edge(request, setup.lane(number).edge),
        Onto::All => true,
    }
}

fn copy_of(item: &Item) -> Result<Item, NoMemory>
    ensures { IfOk result (λ copy. copy ≡ item.now) }
{
    Ok(match item {
        Item::Carry(tuple) => Item::Carry(tuple.copy()?),
        Item::Mark { request, cover } => Item::Mark {
            request: *request,
            cover: *cover,
        },
        Item::Last => Item::Last,
    })
}

// Puts the outputs of a worker on its lanes out.
fn send(who: SetupWorker<'_>, lists: &mut [LaneItems], outs: Outs) -> Result<(), NoMemory>
    requires long { length lists.old ≡ length (out_numbers (setup_here who).job who.number) }
    ensures { OnOk result (lists.new
        ≡ with_puts (lanes_out (setup_here who.entry).job who.entry.number)
        (map (put_out (setup_here who.entry).job (who_here who.entry)) outs) lists.old) }
{
    let at = who.setup.worker_at(who.number);
    for output in outs.into_vec() {
        match who.setup.route(at, output.port, &output.tuple) {
            Some(lane) => {
                let sending = Sending {
                    onto: Onto::Lane(lane),
                    item: Item::Carry(output.tuple),
                };
                put_on(who, lists, &sending)?
            }
            None => {}
        }
    }
    Ok(())
}

// Puts the marker of a request on the lanes out that it covers.
fn mark(who: SetupWorker<'_>, lists: &mut [LaneItems], request: u64) -> Result<(), NoMemory>
    requires long { length lists.old ≡ length (out_numbers (setup_here who).job who.number) }
    ensures { OnOk result (lists.new ≡ with_markers (setup_here who.entry) request
        (out_numbers (setup_here who.entry).job who.entry.number) lists.old) }
{
    match who.setup.plan_of(request) {
        Some(plan) => {
            let sending = Sending {
                onto: Onto::Covered(request),
                item: Item::Mark {
                    request,
                    cover: plan.nodes,
                },
            };
            put_on(who, lists, &sending)
        }
        None => Ok(()),
    }
}

fn empty_lists(alloc: Global, lanes: usize) -> Result<Vec<LaneItems>, NoMemory>
    ensures { IfOk result (λ lists. lists.items ≡ replicate lanes []) }
{
    let mut lists = Vec::new(alloc);
    for _lane in 0..lanes {
        lists.push(LaneItems::new(alloc))?;
    }
    Ok(lists)
}
