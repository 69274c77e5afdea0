mod acting;

ghost use Rattle.std.specs.Prelude.{◌≡◌, ℕ, ◌<◌, ◌≤◌, ◌↔◌, IfOk, IsTrue, false, length, map};
ghost use Rattle.std.specs.List.{list_any};
ghost use Rattle.marker_align.specs.Decision.{decided};
ghost use Rattle.flow_model.specs.Begin.{Begin, at_first};
ghost use Rattle.flow_model.specs.Setup.{setup_view};
ghost use Rattle.flow_model.specs.SetupWorker.{setup_here};
ghost use Rattle.flow_worker.specs.Endpoints.{IsSteadyOut, sent_in_all, all_taken, is_waiting};
ghost use Rattle.flow_worker.specs.Pairs.{EachOne};
ghost use Rattle.flow_worker.specs.Parts.{AreNewEndpoints, IsStartOf, IsStateAt, endpoint_in};
ghost use Rattle.flow_worker.specs.Parts.{endpoint_out};
ghost use Rattle.flow_worker.specs.Steps.{PollsOnly, PutsOnly, TakesOnly};
ghost use Rattle.flow_worker.specs.Turning.{IsDone, IsTurn};
ghost use Rattle.flow_worker.specs.Worker.{IsWorker, hands};

use crate::lanes_in::LanesIn;
use crate::lanes_out::LanesOut;
use crate::parts::{Parts, Worked, new_ins, new_outs, part_ins, part_outs};
use crate::worker::acting::Acted;
use control_box::Owner;
use flow_model::{Setup, SetupWorker, WorkerState, workers_keep_steady};
use keyed_state::Keyed;
use lane_core::Lanes;
use marker_align::{Act, Due};
use operators::Outs;
use sink_journal::Entry;
use std::alloc::Global;
use std::marker::Model;
use tuple_trace::{Gate, NoMemory, Reserved};

/// The outcome of a turn.
#[derive(Clone, Copy, Debug, PartialEq, Eq)]
pub enum Turn {
    /// An item was put or taken, or an act was done.
    Moved,
    /// There was nothing to do: see `IsIdle` in specs/Turning.antt.
    Idle,
    /// The worker has closed, and nothing waits.
    Done,
    /// Memory ran out. The turn may be called again.
    NoMemory,
}

/// A worker of a node: its lanes with the items in hand and the items that wait, its journal, and
/// the function and counts in force.
///
/// It is generic over the form of lane, and knows no thread.
#[derive(Drop)]
pub struct Worker<L: Lanes> {
    alloc: Global,
    number: u32,
    node: u32,
    place: u32,
    journal: Reserved<Entry>,
    // What is in force. It counts no ended lane: a worker closes when all lanes have ended.
    state: WorkerState,
    due: Option<Due>,
    ins: LanesIn<L>,
    outs: LanesOut<L>,
    owner: Owner,
    closed: bool,
    // The place at which its search for a tuple begins.
    next: u32,
    // How many tuples it has processed.
    met: u64,
    // The list of a function's outputs, empty between acts. It keeps its memory.
    made: Outs,
    // Memory in which `finish` hands the endpoints back.
    spare_ins: Vec<L::Rx>,
    spare_outs: Vec<L::Tx>,
}

impl<L: Lanes> Model for Worker<L> {
    ghost use Rattle.std.specs.Prelude.{◌≡◌, []};
    ghost use Rattle.std.specs.Vec.{vec_capacity};
    ghost use Rattle.flow_worker.specs.Worker.{WorkerIs};

    ghost Value = { WorkerIs };

    ghost use Rattle.std.specs.Coded.{codes};
    ghost use Rattle.keyed_state.specs.Counts.{counts_code};

    ghost coded = { Prim.hlevel (codes, counts_code) };

    ghost view = { λ w. record {
      number = w.number;
      node = w.node;
      place = w.place;
      journal = w.journal.items;
      memory = w.journal.memory;
      in_force = w.state.func;
      counts = w.state.counts;
      last = w.state.last;
      due = w.due;
      ins = w.ins;
      outs = w.outs;
      owner = w.owner;
      closed = w.closed;
      next = w.next;
      spare_in = vec_capacity w.spare_ins;
      spare_out = vec_capacity w.spare_outs;
    } };

    ghost invariant = { λ w.
        (w.spare_ins.items ≡ []) × (w.spare_outs.items ≡ []) × (w.made ≡ [])
        × (w.state.ended ≡ 0) };
}

/// Where a worker begins.
#[derive(Drop)]
pub struct WorkerStart {
    /// How many requests were turned before.
    pub turned: u64,
    /// What the worker has counted.
    pub counts: Keyed,
}

// Where a worker begins, and what is in force there.
#[derive(Drop)]
pub(crate) struct Beginning {
    turned: u64,
    state: WorkerState,
}

impl<L: Lanes> Worker<L> {
    /// Makes a worker of a setup, at the beginning of a run.
    ///
    /// `ins` and `outs` are the endpoints of the worker's lanes, in the order of the lanes'
    /// numbers. `owner` is its end of a new box. The one error is out of memory; it gives the
    /// endpoints up.
    pub fn make(
        alloc: Global,
        who: SetupWorker<'_>,
        ins: Vec<L::Rx>,
        outs: Vec<L::Tx>,
        owner: Owner,
    ) -> Result<Worker<L>, NoMemory>
        requires ends { AreNewEndpoints (setup_here who).job who.number
            (map L.Rx.state ins.items) (map L.Tx.state outs.items) }
        requires owner { owner.turned ≡ 0 }
        ensures law { IfOk result (IsWorker (setup_here who.entry)
            (at_first (setup_here who.entry))) }
        ensures ins { IfOk result (λ w. map endpoint_in w.ins ≡ map L.Rx.state ins.items) }
        ensures outs { IfOk result (λ w. map endpoint_out w.outs ≡ map L.Tx.state outs.items) }
        ensures owner { IfOk result (λ w. w.owner ≡ owner) }
    {
        let state = WorkerState::new(alloc);
        let beginning = Beginning { turned: 0, state };
        Worker::begin(alloc, who, ins, outs, owner, beginning)
    }

    /// Makes the worker of a start, with what the requests that were turned before have put in
    /// force. The counts are moved into it.
    ///
    /// `ins` and `outs` are those of [`Worker::make`]. `owner` is its end of a new box, which
    /// counts the requests that cover the worker after those. The one error is out of memory; it
    /// gives the endpoints and the counts up.
    pub fn make_from(
        alloc: Global,
        who: SetupWorker<'_>,
        ins: Vec<L::Rx>,
        outs: Vec<L::Tx>,
        owner: Owner,
        start: WorkerStart,
    ) -> Result<Worker<L>, NoMemory>
        requires ends { AreNewEndpoints (setup_here who).job who.number
            (map L.Rx.state ins.items) (map L.Tx.state outs.items) }
        requires owner { owner.turned ≡ 0 }
        requires turned { start.turned ≤ length (setup_here who).requests }
        ensures law { IfOk result (λ w. (begin : Begin) → IsStartOf begin who.entry.number start
            → IsWorker (setup_here who.entry) begin w) }
        ensures ins { IfOk result (λ w. map endpoint_in w.ins ≡ map L.Rx.state ins.items) }
        ensures outs { IfOk result (λ w. map endpoint_out w.outs ≡ map L.Tx.state outs.items) }
        ensures owner { IfOk result (λ w. w.owner ≡ owner) }
    {
        let WorkerStart { turned, counts } = start;
        let state = WorkerState {
            func: who.setup.in_force_after(who.node(), turned),
            counts,
            last: who.setup.last_covering(who.number, turned),
            ended: 0,
        };
        Worker::begin(alloc, who, ins, outs, owner, Beginning { turned, state })
    }

    // Makes the worker of a beginning.
    fn begin(
        alloc: Global,
        who: SetupWorker<'_>,
        ins: Vec<L::Rx>,
        outs: Vec<L::Tx>,
        owner: Owner,
        beginning: Beginning,
    ) -> Result<Worker<L>, NoMemory>
        requires ends { AreNewEndpoints (setup_here who).job who.number
            (map L.Rx.state ins.items) (map L.Tx.state outs.items) }
        requires owner { owner.turned ≡ 0 }
        requires unended { beginning.state.ended ≡ 0 }
        ensures law { IfOk result (λ w. (begin : Begin)
            → IsStateAt (setup_here who.entry) begin who.entry.number beginning
            → IsWorker (setup_here who.entry) begin w) }
        ensures ins { IfOk result (λ w. map endpoint_in w.ins ≡ map L.Rx.state ins.items) }
        ensures outs { IfOk result (λ w. map endpoint_out w.outs ≡ map L.Tx.state outs.items) }
        ensures owner { IfOk result (λ w. w.owner ≡ owner) }
    {
        let Beginning { turned, state } = beginning;
        let SetupWorker { setup, number } = who;
        let at = setup.worker_at(number);
        let room_in = Vec::with_capacity(alloc, ins.len())?;
        let spare_ins = Vec::with_capacity(alloc, ins.len())?;
        let room_out = Vec::with_capacity(alloc, outs.len())?;
        let spare_outs = Vec::with_capacity(alloc, outs.len())?;
        let ins = new_ins(setup, ins, setup.lanes_in(number), room_in);
        let outs = new_outs(alloc, setup, outs, setup.lanes_out(number), room_out);
        let due = setup.due_after(number, turned);
        Ok(Worker {
            alloc,
            number,
            node: at.node,
            place: at.place,
            journal: Reserved::new(alloc),
            state,
            due,
            ins: LanesIn::new(ins),
            outs: LanesOut::new(outs),
            owner,
            closed: false,
            next: 0,
            met: 0,
            made: Outs::new(alloc),
            spare_ins,
            spare_outs,
        })
    }

    /// Returns what a worker that is done leaves, and its endpoints in the order of
    /// [`Worker::make`]. Takes no memory.
    pub fn finish(self) -> Parts<L>
        requires done { IsDone self }
        requires room_in { length self.ins ≤ self.spare_in }
        requires room_out { length self.outs ≤ self.spare_out }
        ensures worked { result.worked
            ≡ record { number = self.number; journal = self.journal; state = self.counts } }
        ensures ins { map L.Rx.state result.ins.items ≡ map endpoint_in self.ins }
        ensures outs { map L.Tx.state result.outs.items ≡ map endpoint_out self.outs }
    {
        let Worker {
            number,
            journal,
            state,
            ins,
            outs,
            spare_ins,
            spare_outs,
            ..
        } = self;
        let WorkerState { counts, .. } = state;
        Parts {
            worked: Worked::of(number, journal.into_items(), counts),
            ins: part_ins(ins.into_vec(), spare_ins),
            outs: part_outs(outs.into_vec(), spare_outs),
        }
    }

    /// Takes one turn, in this order: it puts waiting items, lane by lane; takes into the empty
    /// hands; polls the box; decides; and does at most one act. A closed worker only puts.
    ///
    /// `setup` is the one that the worker was made for. `gate` is called directly before a tuple is
    /// processed, with the node, the worker's place there, and the number of earlier tuples.
    ///
    /// After [`Turn::NoMemory`] the journal, next due, function, counts and planned items are as
    /// before the turn, and what was taken is in the hands. The turn may be called again.
    pub fn turn<G: Gate>(&mut self, need: &mut L::Need, setup: &Setup, gate: &G) -> Turn
        requires law { (begin : Begin) × IsWorker (setup_view setup.now) begin self.old }
        ensures { IsTurn (setup_view setup.now) result self.old self.new }
    {
        workers_keep_steady(setup);
        let put = self.put_waiting(need);
        if self.is_closed() {
            if !self.waits() {
                return Turn::Done;
            }
            return if put { Turn::Moved } else { Turn::Idle };
        }
        let took = self.take_into_hands(need);
        let posted = self.poll();
        let act = self.choose(posted);
        match self.act(setup, gate, act) {
            Acted::Starved => Turn::NoMemory,
            Acted::Held => { if put || took { Turn::Moved } else { Turn::Idle } }
            Acted::Did => {
                if self.is_closed() && !self.waits() {
                    Turn::Done
                } else {
                    Turn::Moved
                }
            }
        }
    }

    fn put_waiting(&mut self, need: &mut L::Need) -> bool
        requires steady { EachOne IsSteadyOut self.old.outs }
        ensures puts { PutsOnly self.old self.new }
        ensures moved { IsTrue result ↔ (sent_in_all self.old.outs < sent_in_all self.new.outs) }
    {
        self.outs.flush(need)
    }

    fn take_into_hands(&mut self, need: &mut L::Need) -> bool
        ensures takes { TakesOnly self.old self.new }
        ensures moved { IsTrue result ↔ (all_taken self.old.ins < all_taken self.new.ins) }
    {
        self.ins.fill(need)
    }

    // Polls the box. Returns whether the next due is posted.
    fn poll(&mut self) -> bool
        ensures { (n : ℕ) × PollsOnly self.old self.new n
            × (IsTrue result ↔ (self.old.owner.turned < n)) }
    {
        let posted = self.owner.poll();
        self.owner.last_turned() < posted
    }

    fn is_closed(&self) -> bool
        ensures { result ≡ self.now.closed }
    {
        self.closed
    }

    fn waits(&self) -> bool
        ensures { result ≡ list_any is_waiting self.now.outs }
    {
        self.outs.is_waiting()
    }

    pub(crate) fn due(&self) -> Option<Due>
        ensures { result ≡ self.now.due }
    {
        self.due
    }

    fn choose(&self, posted: bool) -> Act
        requires next { self.now.next < length self.now.ins }
        ensures { result ≡ decided (hands self.now) self.now.due posted self.now.next }
    {
        self.ins.decide(self.due.as_ref(), posted, self.next)
    }
}
