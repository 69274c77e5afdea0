ghost use Rattle.std.specs.Prelude.{◌≡◌, IfOk};
ghost use Rattle.flow_model.specs.Begin.{at_first};
ghost use Rattle.flow_model.specs.Setup.{setup_view};

use crate::Setup;
use keyed_state::Keyed;
use sink_journal::States;
use std::alloc::Global;
use std::marker::Model;
use tuple_trace::NoMemory;

/// Where a run begins: how many rows were fed before it, how many requests were turned, and the
/// counts of each worker, in the order of the workers' numbers.
#[derive(Drop)]
pub struct Start {
    pub row: u64,
    pub turned: u64,
    pub states: States,
}

impl Model for Start {
    ghost use Rattle.flow_model.specs.Begin.{Begin};

    ghost Value = { Begin };

    ghost use Rattle.std.specs.Coded.{codes};
    ghost use Rattle.keyed_state.specs.Counts.{counts_code};

    ghost coded = { Prim.hlevel (codes, counts_code) };

    ghost view = { λ s. record { row = s.row; turned = s.turned; states = s.states } };
}

impl Start {
    /// The beginning of all: no row was fed, no request was turned, and nothing was counted. The
    /// one error is out of memory.
    pub fn first(alloc: Global, setup: &Setup) -> Result<Start, NoMemory>
        ensures { IfOk result (λ start. start ≡ at_first (setup_view setup.now)) }
    {
        let mut states = States::new(alloc);
        for _worker in setup.topology.workers.as_slice() {
            states.push(Keyed::new(alloc))?;
        }
        Ok(Start {
            row: 0,
            turned: 0,
            states,
        })
    }
}
