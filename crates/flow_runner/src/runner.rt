ghost use Rattle.std.specs.Prelude.{◌≡◌, ◌≢◌, IfOk, true, false};
ghost use Rattle.flow_model.specs.Setup.{setup_view};
ghost use Rattle.flow_worker.specs.declared.worker.Turn.TheVariants.{Done};
ghost use Rattle.flow_worker.specs.Turning.{IsDone};
ghost use Rattle.flow_worker.specs.Worker.{IsWorker};
ghost use Rattle.flow_runner.specs.Runner.{endpoints_of};

use crate::charter::Charter;
use flow_model::Setup;
use flow_worker::{Turn, Worker};
use lane_core::Lanes;
use std::alloc::Global;
use std::marker::{Model, PhantomData};
use tuple_trace::{Gate, NoMemory};

/// How many turns a runner gets at one visit, at most.
pub const VISIT: u32 = 64;

/// A worker with its number and its setup, which may be given turns by any thread.
///
/// Its worker has the law of a worker from the charter's beginning on.
#[derive(Drop)]
pub struct Runner<'s, L: Lanes, C: Charter> {
    setup: &'s Setup,
    number: u32,
    // Boxed, since runners are moved at each visit.
    worker: Box<Worker<L>>,
    done: bool,
    of: PhantomData<C>,
}

impl<'s, L: Lanes, C: Charter> Model for Runner<'s, L, C> {
    ghost use Rattle.flow_model.specs.Setup.{setup_view};
    ghost use Rattle.flow_runner.specs.Runner.{IsRunner, RunnerIs, endpoints_of};

    ghost Value = { RunnerIs };

    ghost view = { λ r. record {
      number = r.number;
      endpoints = endpoints_of r.worker.value;
      is_done = r.done;
    } };

    ghost invariant = { λ r.
        IsRunner C.setup C.begin (setup_view r.setup.now) r.number r.worker.value r.done };
}

impl<'s, L: Lanes, C: Charter> Runner<'s, L, C> {
    /// Makes the runner of the worker with this number. The one error is out of memory; it gives
    /// the worker up.
    pub fn new(
        alloc: Global,
        setup: &'s Setup,
        number: u32,
        worker: Worker<L>,
    ) -> Result<Runner<'s, L, C>, NoMemory>
        requires setup { setup_view setup.now ≡ C.setup }
        requires number { number ≡ worker.number }
        requires law { IsWorker (setup_view setup.now) C.begin worker }
        ensures { IfOk result (λ r. r ≡ record {
          number = number;
          endpoints = endpoints_of worker;
          is_done = false;
        }) }
    {
        let worker = Box::new(alloc, worker)?;
        Ok(Runner {
            setup,
            number,
            worker,
            done: false,
            of: PhantomData,
        })
    }

    /// Gives the worker a turn, and returns what it did. A runner that is done returns
    /// [`Turn::Done`] at once, and [`Turn::NoMemory`] is the one error.
    pub fn turn<G: Gate>(&mut self, need: &mut L::Need, gate: &G) -> Turn
        ensures number { self.new.number ≡ self.old.number }
        ensures endpoints { self.new.endpoints ≡ self.old.endpoints }
        ensures done { result ≡ Done → self.new.is_done ≡ true }
        ensures going { result ≢ Done → self.new.is_done ≡ false }
    {
        if self.done {
            return Turn::Done;
        }
        let setup = self.setup;
        let turn = self.worker.turn(need, setup, gate);
        self.done = matches!(&turn, Turn::Done);
        turn
    }

    /// Gives the worker turns while they move something, [`VISIT`] at most. Returns
    /// [`Turn::Idle`] if none moved, and [`Turn::NoMemory`] at once if memory runs out.
    pub fn visit<G: Gate>(&mut self, need: &mut L::Need, gate: &G) -> Turn
        ensures number { self.new.number ≡ self.old.number }
        ensures endpoints { self.new.endpoints ≡ self.old.endpoints }
        ensures done { result ≡ Done → self.new.is_done ≡ true }
        ensures going { result ≢ Done → self.new.is_done ≡ false }
    {
        let mut moved = false;
        for _ in 0..VISIT {
            match self.turn(need, gate) {
                Turn::Moved => moved = true,
                Turn::Idle => return moved_or_idle(moved),
                Turn::Done => return Turn::Done,
                Turn::NoMemory => return Turn::NoMemory,
            }
        }
        moved_or_idle(moved)
    }

    /// The number of its worker.
    pub fn number(&self) -> u32
        ensures { result ≡ self.now.number }
    {
        self.number
    }

    /// Returns the worker of a runner that is done.
    pub fn into_worker(self) -> Worker<L>
        requires { self.is_done ≡ true }
        ensures number { result.number ≡ self.entry.number }
        ensures endpoints { endpoints_of result ≡ self.entry.endpoints }
        ensures law { IsWorker C.setup C.begin result }
        ensures done { IsDone result }
    {
        let Runner { worker, .. } = self;
        Box::into_inner(worker)
    }
}

fn moved_or_idle(moved: bool) -> Turn
    ensures { result ≢ Done }
{
    if moved { Turn::Moved } else { Turn::Idle }
}
