// What a run leaves.
ghost use Rattle.std.specs.Prelude.{◌≡◌, ◌++◌, [], IfOk, map};
ghost use Rattle.flow_worker.specs.Parts.{WorkedIs};
ghost use Rattle.flow_engine.specs.Flown.{flown_record};

use flow_model::{RunRecord, Setup, States};
use flow_worker::{Opened, Worked};
use lane_core::Lanes;
use sink_journal::{Feeds, Journals};
use std::alloc::Global;
use tuple_trace::NoMemory;

/// What a run leaves: its setup, what the feeder did, and what each worker leaves, in the order of
/// the workers' numbers.
///
/// Only turns of a worker over lanes of the form `L` make a [`Worked`], so the journals are those
/// of workers.
#[derive(Drop)]
pub struct Flown<L: Lanes> {
    pub setup: Setup,
    pub feeds: Feeds,
    pub crew: Vec<Worked<L>>,
}

impl<L: Lanes> Flown<L> {
    /// The record of the run. The one error is out of memory; it gives up what the run left.
    pub fn record(self, alloc: Global) -> Result<RunRecord, NoMemory>
        ensures { IfOk result (λ ran. ran ≡ flown_record self.setup self.feeds self.crew.items) }
    {
        let Flown { setup, feeds, crew } = self;
        let Left { journals, states } = left_by(alloc, crew)?;
        Ok(RunRecord {
            setup,
            feeds,
            journals,
            states,
        })
    }
}

/// What the workers left.
#[derive(Drop)]
struct Left {
    journals: Journals,
    states: States,
}

fn left_by<L: Lanes>(alloc: Global, crew: Vec<Worked<L>>) -> Result<Left, NoMemory>
    ensures journals { IfOk result (λ left. left.journals
        ≡ map (λ (w : WorkedIs). w.journal) crew.items) }
    ensures states { IfOk result (λ left. left.states
        ≡ map (λ (w : WorkedIs). w.state) crew.items) }
{
    let mut left = Left {
        journals: Journals::new(alloc),
        states: States::new(alloc),
    };
    for worked in crew {
        let Opened { journal, state } = worked.open();
        left.journals.push(journal)?;
        left.states.push(state)?;
    }
    Ok(left)
}
