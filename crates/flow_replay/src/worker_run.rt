// What one worker does when it turns and when it ends.
ghost use Rattle.std.specs.Prelude.{◌≡◌, ◌++◌, OnOk};
ghost use Rattle.flow_model.specs.Lanes.{marked_lanes};
ghost use Rattle.flow_model.specs.SetupWorker.{setup_here, who_here};
ghost use Rattle.flow_replay.specs.inner.Runs.{IsGain, empty_run, end_block, marks};
ghost use Rattle.flow_replay.specs.inner.Runs.{turn_block, turn_entries};

use flow_model::{SetupWorker, WorkerState};
use sink_journal::{Entry, Journal};
use std::alloc::Global;
use tuple_trace::NoMemory;

/// A worker in a run: what it has done, and what it has in force.
#[derive(Debug, Drop)]
pub struct WorkerRun {
    pub journal: Journal,
    pub state: WorkerState,
}

impl WorkerRun {
    /// A worker that has done nothing. Takes no memory.
    pub fn new(alloc: Global) -> WorkerRun
        ensures { result ≡ empty_run }
    {
        WorkerRun {
            journal: Journal::new(alloc),
            state: WorkerState::new(alloc),
        }
    }

    /// The worker turns for a request, if the request covers it.
    pub fn turn_if_covered(&mut self, who: SetupWorker<'_>, request: u64) -> Result<(), NoMemory>
        ensures { OnOk result (IsGain (setup_here who.entry) (who_here who.entry)
            (turn_block (setup_here who.entry) request who.entry.number) self.old self.new) }
    {
        if who.setup.covers(who.number, request) {
            self.turn(who, request)?;
        }
        Ok(())
    }

    // The worker notes its markers and directly after them the turn, and puts the change in force.
    fn turn(&mut self, who: SetupWorker<'_>, request: u64) -> Result<(), NoMemory>
        ensures { OnOk result (IsGain (setup_here who.entry) (who_here who.entry)
            (turn_entries (setup_here who.entry) request who.entry.number) self.old self.new) }
    {
        mark(who, &mut self.journal, request)?;
        self.journal.push(Entry::Turned { request })?;
        self.state.turn(who.setup, who.node(), request);
        Ok(())
    }

    /// The worker ends: each of its lanes in does.
    pub fn end(&mut self, who: SetupWorker<'_>) -> Result<(), NoMemory>
        requires { self.old.state.ended ≡ 0 }
        ensures { OnOk result (IsGain (setup_here who.entry) (who_here who.entry)
            (end_block (setup_here who.entry).job who.entry.number) self.old self.new) }
    {
        for number in who.lanes_in() {
            self.journal.push(Entry::Ended { lane: *number })?;
            self.state.end_lane();
        }
        Ok(())
    }
}

// Notes the markers of a request, one for each lane in that brings it.
fn mark(who: SetupWorker<'_>, journal: &mut Journal, request: u64) -> Result<(), NoMemory>
    ensures { OnOk result (journal.new ≡ journal.old ++ marks request
        (marked_lanes (setup_here who.entry) who.entry.number request)) }
{
    for number in who.lanes_in() {
        let edge = who.setup.lane(*number).edge;
        if !who.setup.covers_edge(request, edge) {
            continue;
        }
        journal.push(Entry::Marked {
            lane: *number,
            request,
        })?;
    }
    Ok(())
}
