ghost use Rattle.std.specs.Prelude.{◌≡◌, IfOk};
ghost use Rattle.flow_model.specs.Record.{record_view};
ghost use Rattle.savepoint.specs.Parts.{start_of as start_of_run};

use flow_model::{RunRecord, Start};
use keyed_state::Keyed;
use sink_journal::States;
use std::alloc::Global;
use tuple_trace::NoMemory;

/// Where a run goes on after this record, which was fed `rows` rows. Its counts are copied.
///
/// The only error is out of memory.
pub fn start_of(alloc: Global, ran: &RunRecord, rows: u64) -> Result<Start, NoMemory>
    ensures { IfOk result (λ start. start ≡ start_of_run rows (record_view ran.now)) }
{
    Ok(Start {
        row: rows,
        turned: ran.setup.request_count() as u64,
        states: copies(alloc, ran.states.as_slice())?,
    })
}

/// The same place to go on from, with counts of its own. The only error is out of memory.
pub fn copy_of_start(alloc: Global, start: &Start) -> Result<Start, NoMemory>
    ensures { IfOk result (λ copy. copy ≡ start.now) }
{
    Ok(Start {
        row: start.row,
        turned: start.turned,
        states: copies(alloc, start.states.as_slice())?,
    })
}

fn copies(alloc: Global, states: &[Keyed]) -> Result<States, NoMemory>
    ensures { IfOk result (λ copies. copies ≡ states.now) }
{
    let mut copies = States::new(alloc);
    for state in states {
        copies.push(state.copy()?)?;
    }
    Ok(copies)
}
