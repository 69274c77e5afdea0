// What is in force at a worker.
ghost use Rattle.std.specs.Prelude.{◌≡◌, ◌<◌, ◌+◌, ◌-◌, ◌^◌, OnErr, OnOk, Some, length};
ghost use Rattle.jobs.specs.declared.func.Func.{Func as FuncIs};
ghost use Rattle.flow_model.specs.InForce.{counts_with, func_in as func_there};
ghost use Rattle.flow_model.specs.Requests.{change_by, func_with};
ghost use Rattle.flow_model.specs.Setup.{setup_view};
ghost use Rattle.flow_model.specs.WorkerState.{AreMade, HasEndedLane, IsInForce, IsProcessed};
ghost use Rattle.flow_model.specs.WorkerState.{IsTurned, first_state};

use crate::{InForce, Setup, WorkerAt};
use keyed_state::Keyed;
use operators::{Func, Outs, Visited};
use std::alloc::Global;
use tuple_trace::{NoMemory, Tuple, Visit};

/// A worker, and the function that is in force at it.
#[derive(Clone, Copy)]
pub struct WorkerFunc<'f> {
    pub at: WorkerAt,
    pub func: &'f Func,
}

/// What a worker has in force. An executor, a replay and a running worker hold it alike.
#[derive(Debug, Drop)]
pub struct WorkerState {
    /// Where the worker's function stands.
    pub func: InForce,
    pub counts: Keyed,
    /// The latest request turned, 0 before the first.
    pub last: u64,
    /// How many lanes in have ended.
    pub ended: u64,
}

impl WorkerState {
    /// Makes the state of a worker that has done nothing. Takes no memory.
    pub fn new(alloc: Global) -> WorkerState
        ensures { result ≡ first_state }
    {
        WorkerState {
            func: InForce::Own,
            counts: Keyed::new(alloc),
            last: 0,
            ended: 0,
        }
    }

    /// Processes a tuple at the worker that stands at `at`: counts it, and adds to `outs` what the
    /// function in force makes of it. After an error state and `outs` are as before.
    #[inline]
    pub fn process(
        &mut self,
        alloc: Global,
        setup: &Setup,
        at: WorkerAt,
        tuple: &Tuple,
        outs: &mut Outs,
    ) -> Result<(), NoMemory>
        requires { at.node < length (setup_view setup.now).job.nodes }
        ensures state { OnOk result (IsProcessed (setup_view setup.now) at tuple.now self.old
            self.new) }
        ensures outs { OnOk result (AreMade (setup_view setup.now) at tuple.now self.old outs.old
            outs.new) }
        ensures err { OnErr result (self.new ≡ self.old) }
        ensures err_outs { OnErr result (outs.new ≡ outs.old) }
    {
        let func = func_of(setup, at.node, self.func);
        self.process_by(alloc, setup, WorkerFunc { at, func }, tuple, outs)
    }

    /// Does what [`WorkerState::process`] does, where the caller has looked up the function in
    /// force.
    #[inline]
    pub fn process_by(
        &mut self,
        alloc: Global,
        setup: &Setup,
        by: WorkerFunc<'_>,
        tuple: &Tuple,
        outs: &mut Outs,
    ) -> Result<(), NoMemory>
        requires node { by.at.node < length (setup_view setup.now).job.nodes }
        requires func { IsInForce (setup_view setup.now) by.at.node self.old.func by.func.now }
        ensures state { OnOk result (IsProcessed (setup_view setup.now) by.entry.at tuple.now
            self.old self.new) }
        ensures outs { OnOk result (AreMade (setup_view setup.now) by.entry.at tuple.now self.old
            outs.old outs.new) }
        ensures kept { OnOk result (self.new ≡ record self.old { counts = self.new.counts }) }
        ensures err { OnErr result (self.new ≡ self.old) }
        ensures err_outs { OnErr result (outs.new ≡ outs.old) }
    {
        let visit = Visit {
            node: by.at.node,
            worker: by.at.place,
            last: self.last,
        };
        let here = Visited {
            job: &setup.job,
            ports: setup.ports(by.at.node),
            visit,
        };
        here.apply(alloc, by.func, &mut self.counts, tuple, outs)
    }

    /// Turns for a request at a node: its change of the node, if there is one, comes into force.
    /// Takes no memory.
    #[inline]
    pub fn turn(&mut self, setup: &Setup, node: u32, request: u64)
        ensures view { IsTurned (setup_view setup.now) node request self.old self.new }
        ensures func { (func : FuncIs)
            → func_there (setup_view setup.now) node self.old.func ≡ Some func
            → func_there (setup_view setup.now) node self.new.func
            ≡ Some (func_with (change_by (setup_view setup.now) request node) func) }
        ensures rest { self.new ≡ record self.old {
          func = self.new.func;
          counts = counts_with (change_by (setup_view setup.now) request node) self.old.counts;
          last = request;
        } }
    {
        setup.put_in_force(node, request, &mut self.func, &mut self.counts);
        self.last = request;
    }

    /// Notes that one more lane in has ended.
    pub fn end_lane(&mut self)
        requires { self.old.ended < 2 ^ 64 - 1 }
        ensures is { self.new ≡ record self.old { ended = self.old.ended + 1 } }
        ensures view { HasEndedLane self.old self.new }
    {
        self.ended += 1;
    }
}

// The function that stands there, or the job's own of the node if none does.
#[inline]
fn func_of(setup: &Setup, node: u32, at: InForce) -> &Func
    requires { node < length (setup_view setup.now).job.nodes }
    ensures { IsInForce (setup_view setup.now) node at result.now }
{
    match setup.func_in(node, at) {
        Some(func) => func,
        None => &setup.job.nodes.as_slice()[node as usize].func,
    }
}
