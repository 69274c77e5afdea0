// The acts of a worker: it turns for a request, processes a tuple, or closes.
ghost use Rattle.std.specs.Prelude.{◌≡◌, ℕ, ◌+◌, ◌<◌, ◌≤◌, Bool, IfSome, OnErr, OnOk, Some, length};
ghost use Rattle.marker_align.specs.Decision.{decided};
ghost use Rattle.jobs.specs.declared.func.Func.{Func as FuncIs};
ghost use Rattle.marker_align.specs.declared.decision.Due.{Due as DueIs};
ghost use Rattle.flow_model.specs.SetupView.{Worker as WorkerOfJob};
ghost use Rattle.flow_model.specs.Setup.{setup_view};
ghost use Rattle.flow_model.specs.InForce.{func_in as func_at};
ghost use Rattle.flow_worker.specs.Steps.{HasClosed, HasProcessed, HasTuple, HasTurned, MemoryOnly};
ghost use Rattle.flow_worker.specs.Turning.{HasActed};
ghost use Rattle.flow_worker.specs.Worker.{IsPlaced, hands};

use crate::Worker;
use crate::outputs::enqueue_outputs;
use flow_model::{Setup, WorkerAt, WorkerFunc};
use lane_core::Lanes;
use marker_align::{Act, Due, MAX_LANES_IN};
use operators::{most_outputs, outputs_are_few};
use sink_journal::Entry;
use tuple_trace::{Gate, NoMemory};

// The outcome of an act.
#[derive(Clone, Copy, Debug, PartialEq, Eq)]
pub(crate) enum Acted {
    // It was done.
    Did,
    // There was none, or it has to wait until no output waits.
    Held,
    // Memory ran out.
    Starved,
}

impl<L: Lanes> Worker<L> {
    // Does the act, unless it has to wait.
    pub(crate) fn act<G: Gate>(&mut self, setup: &Setup, gate: &G, act: Act) -> Acted
        requires placed { (who : WorkerOfJob) × IsPlaced (setup_view setup.now) who self.old }
        requires func { (func : FuncIs)
            × (func_at (setup_view setup.now) self.old.node self.old.in_force ≡ Some func) }
        requires few { IfSome self.old.due (λ (d : DueIs). self.old.owner.turned < d.request) }
        requires act { (posted : Bool)
            × (act ≡ decided (hands self.old) self.old.due posted self.old.next) }
        ensures { (who : WorkerOfJob) → IsPlaced (setup_view setup.now) who self.old
            → HasActed (setup_view setup.now) who self.old.due act result self.old self.new }
    {
        match act {
            Act::Turn(_) => match self.due() {
                Some(due) => match self.turn_for(setup, &due) {
                    Ok(()) => Acted::Did,
                    Err(_) => Acted::Starved,
                },
                None => Acted::Held,
            },
            Act::Process(place) => {
                if self.waits() {
                    return Acted::Held;
                }
                match self.process(setup, gate, place) {
                    Ok(()) => Acted::Did,
                    Err(_) => Acted::Starved,
                }
            }
            Act::Close => {
                if self.waits() {
                    return Acted::Held;
                }
                match self.close() {
                    Ok(()) => Acted::Did,
                    Err(_) => Acted::Starved,
                }
            }
            Act::Nothing => Acted::Held,
        }
    }

    // Turns for a request: notes its markers and the turn, puts its change in force, adds its
    // marker to the covered lanes out, and acknowledges.
    #[inline(never)]
    fn turn_for(&mut self, setup: &Setup, due: &Due) -> Result<(), NoMemory>
        requires placed { (who : WorkerOfJob) × IsPlaced (setup_view setup.now) who self.old }
        requires few { self.old.owner.turned < due.now.request }
        ensures ok { OnOk result (HasTurned (setup_view setup.now) due.now self.old self.new) }
        ensures err { OnErr result (MemoryOnly self.old self.new) }
    {
        if self.journal.reserve(self.ins.len() + 1).is_err() {
            return Err(NoMemory);
        }
        if self.outs.reserve(1).is_err() {
            return Err(NoMemory);
        }
        let request = due.request;
        self.ins.note_markers(due, &mut self.journal);
        self.journal.push_reserved(Entry::Turned { request });
        self.state.turn(setup, self.node, request);
        self.due = setup.due_after(self.number, request);
        self.outs.push_markers(setup.covered_edges(request), due);
        self.owner.turned(self.owner.last_turned() + 1);
        Ok(())
    }

    // Processes the tuple in the hand at a place.
    fn process<G: Gate>(&mut self, setup: &Setup, gate: &G, place: u32) -> Result<(), NoMemory>
        requires placed { (who : WorkerOfJob) × IsPlaced (setup_view setup.now) who self.old }
        requires func { (func : FuncIs)
            × (func_at (setup_view setup.now) self.old.node self.old.in_force ≡ Some func) }
        requires held { HasTuple self.old.ins place }
        requires within { place < length self.old.ins }
        ensures ok { OnOk result ((who : WorkerOfJob) → IsPlaced (setup_view setup.now) who self.old
            → HasProcessed (setup_view setup.now) who place self.old self.new) }
        ensures err { OnErr result (MemoryOnly self.old self.new) }
    {
        let Some(func) = setup.func_in(self.node, self.state.func) else {
            unreachable!()
        };
        outputs_are_few();
        if self.journal.reserve(1).is_err() {
            return Err(NoMemory);
        }
        let most = most_outputs(func, setup.ports(self.node));
        if self.outs.reserve(most).is_err() {
            return Err(NoMemory);
        }
        gate.pass(self.node, self.place, self.met);
        let by = WorkerFunc {
            at: WorkerAt {
                node: self.node,
                place: self.place,
            },
            func,
        };
        let tuple = self.ins.tuple_at(place);
        let (state, made) = (&mut self.state, &mut self.made);
        if state
            .process_by(self.alloc, setup, by, tuple, made)
            .is_err()
        {
            return Err(NoMemory);
        }
        self.ins.note_tuple(place, &mut self.journal);
        let edges = setup.out_edges(self.node);
        let (outs, made) = (&mut self.outs, &mut self.made);
        enqueue_outputs(self.alloc, &setup.job, self.node, edges, outs, made);
        self.met = self.met.saturating_add(1);
        self.next = next_place(place, self.ins.len());
        Ok(())
    }

    // Closes: notes the end of each lane in, and adds `Last` to each lane out.
    #[inline(never)]
    fn close(&mut self) -> Result<(), NoMemory>
        requires few { length self.old.ins ≤ MAX_LANES_IN }
        ensures ok { OnOk result (HasClosed self.old self.new) }
        ensures err { OnErr result (MemoryOnly self.old self.new) }
    {
        if self.journal.reserve(self.ins.len()).is_err() {
            return Err(NoMemory);
        }
        if self.outs.reserve(1).is_err() {
            return Err(NoMemory);
        }
        self.ins.note_ends(&mut self.journal);
        self.outs.push_ends();
        self.closed = true;
        Ok(())
    }
}

// Returns the place after this one, or place 0 after the last.
fn next_place(place: u32, places: usize) -> u32
    requires within { place < places }
    requires few { places ≤ MAX_LANES_IN }
    ensures { result < places }
{
    let next = place + 1;
    if (next as usize) < places { next } else { 0 }
}
