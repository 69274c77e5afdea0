// An executor on one thread.
ghost use Rattle.std.specs.Prelude.{◌≡◌, ◌<◌, ◌++◌, ◌∷◌, [], IfOk, OnOk, length, map};
ghost use Rattle.std.specs.Prelude.{replicate};
ghost use Rattle.jobs.specs.Job.{job_view};
ghost use Rattle.jobs.specs.Nodes.{IsSourceOf};
ghost use Rattle.sink_journal.specs.declared.journal.Feed.TheVariants.{Stopped};
ghost use Rattle.flow_model.specs.Lanes.{lane_at, lanes};
ghost use Rattle.flow_model.specs.Requests.{afters};
ghost use Rattle.flow_model.specs.Setup.{setup_view};
ghost use Rattle.flow_model.specs.Workers.{nth_worker, workers_in};
ghost use Rattle.flow_replay.specs.inner.Runs.{AllGain, AreOpen, IsStep, empty_run};
ghost use Rattle.flow_replay.specs.inner.Runs.{end_block, made_at, run_at, turn_block};
ghost use Rattle.flow_replay.specs.inner.Delivery.{IsDelivered, IsFed, rank_in};
ghost use Rattle.flow_replay.specs.inner.SoFar.{AreIssued, AreIssuedBefore, counts_of, journal_of};

use crate::worker_run::WorkerRun;
use flow_model::{Setup, SetupWorker, States, WorkerAt, WorkerState};
use operators::Outs;
use sink_journal::{Entry, Feed, Feeds, Journals};
use std::alloc::Global;
use tuple_trace::{NoMemory, Row, Tuple};

/// Runs the rows of a job on one thread. Between two calls no lane has an item in flight, and
/// every request that is issued has turned at all workers that it covers.
///
/// After [`NoMemory`] it is given up.
#[derive(Drop)]
pub struct Executor<'a> {
    alloc: Global,
    pub setup: &'a Setup,
    /// The workers, by their numbers.
    pub runs: Vec<WorkerRun>,
    pub feeds: Feeds,
    /// How many requests are issued.
    pub issued: usize,
    ghost one_each: { length runs.items ≡ length (workers_in (job_view setup.now.job)) },
}

impl<'a> Executor<'a> {
    ghost use Rattle.flow_replay.specs.inner.Executor.{HasLeft, IsNew, SameBesideRuns};

    /// An executor that has done nothing.
    pub fn new(alloc: Global, setup: &'a Setup) -> Result<Executor<'a>, NoMemory>
        ensures { IfOk result (IsNew setup.now) }
    {
        let runs = empty_runs(alloc, setup.workers() as usize)?;
        Ok(Executor {
            alloc,
            setup,
            runs,
            feeds: Feeds::new(alloc),
            issued: 0,
        })
    }

    /// Issues the requests that wait for a row up to this one, of `rows` rows.
    pub fn issue_up_to(&mut self, row: u64, rows: u64) -> Result<(), NoMemory>
        requires { AreIssuedBefore (afters (setup_view self.old.setup.now).requests) rows row
            self.old.issued }
        ensures issued { OnOk result (AreIssued (setup_view self.old.setup.now) rows row
            self.old.issued self.new.issued self.old.feeds self.new.feeds
            self.old.runs.items self.new.runs.items) }
        ensures same { OnOk result (self.new.setup.now ≡ self.old.setup.now) }
    {
        for place in self.issued..self.setup.request_count() {
            let request = place as u64 + 1;
            if self.setup.after(request).min(rows) > row {
                return Ok(());
            }
            self.feeds.push(Feed::Issued(request))?;
            self.turn_all(request)?;
            self.issued = place + 1;
        }
        Ok(())
    }

    /// Feeds a row, and delivers it.
    pub fn feed(&mut self, row: &Row) -> Result<(), NoMemory>
        requires { IsSourceOf (setup_view self.old.setup.now).job row.now.source }
        ensures fed { OnOk result (IsFed (setup_view self.old.setup.now)
            (rank_in self.old.setup.now) row.now
            self.old.issued self.old.runs.items self.new.runs.items) }
        ensures feeds { OnOk result (self.new.feeds
            ≡ self.old.feeds ++ Feed.Fed row.now.tuple.row ∷ []) }
        ensures issued { OnOk result (self.new.issued ≡ self.old.issued) }
        ensures same { OnOk result (self.new.setup.now ≡ self.old.setup.now) }
    {
        self.feeds.push(Feed::Fed(row.tuple.row))?;
        let mut tuple = row.tuple.copy()?;
        tuple.issued = self.issued as u64;
        let feeder = WorkerAt {
            node: row.source,
            place: 0,
        };
        match self.setup.route(feeder, 0, &row.tuple) {
            Some(lane) => self.deliver(lane, tuple)?,
            None => {}
        }
        Ok(())
    }

    /// Delivers a tuple on a lane: the worker at the lane's end processes it, and then each of its
    /// outputs is delivered.
    fn deliver(&mut self, lane: u32, tuple: Tuple) -> Result<(), NoMemory>
        requires { lane < length (lanes (setup_view self.old.setup.now).job) }
        ensures delivered { OnOk result (IsDelivered (setup_view self.old.setup.now)
            (rank_in self.old.setup.now) lane tuple self.old.runs.items self.new.runs.items) }
        ensures same { OnOk result (SameBesideRuns self.old self.new) }
    {
        let worker = self.setup.lane(lane).receiver;
        let at = self.setup.worker_at(worker);
        let outs = self.process(lane, tuple)?;
        for out in outs.into_vec() {
            match self.setup.route(at, out.port, &out.tuple) {
                Some(next) => self.deliver(next, out.tuple)?,
                None => {}
            }
        }
        Ok(())
    }

    // The worker at the end of a lane processes a tuple. Returns its outputs.
    fn process(&mut self, lane: u32, tuple: Tuple) -> Result<Outs, NoMemory>
        requires { lane < length (lanes (setup_view self.old.setup.now).job) }
        ensures step { OnOk result (IsStep (setup_view self.old.setup.now)
            (lane_at (setup_view self.old.setup.now).job lane).receiver (Entry.Met lane tuple)
            self.old.runs.items self.new.runs.items) }
        ensures outs { IfOk result (λ outs. outs ≡ made_at (setup_view self.old.setup.now)
            (nth_worker (setup_view self.old.setup.now).job
            (lane_at (setup_view self.old.setup.now).job lane).receiver)
            (run_at self.old.runs.items (lane_at (setup_view self.old.setup.now).job lane).receiver)
            tuple) }
        ensures same { OnOk result (SameBesideRuns self.old self.new) }
    {
        let worker = self.setup.lane(lane).receiver;
        let at = self.setup.worker_at(worker);
        let run = &mut self.runs[worker as usize];
        let mut outs = Outs::new(self.alloc);
        run.state
            .process(self.alloc, self.setup, at, &tuple, &mut outs)?;
        run.journal.push(Entry::Met { lane, tuple })?;
        Ok(outs)
    }

    // Every worker that a request covers turns.
    fn turn_all(&mut self, request: u64) -> Result<(), NoMemory>
        ensures turned { OnOk result (AllGain (setup_view self.old.setup.now)
            (turn_block (setup_view self.old.setup.now) request)
            self.old.runs.items self.new.runs.items) }
        ensures same { OnOk result (SameBesideRuns self.old self.new) }
    {
        for worker in 0..self.runs.len() {
            let who = SetupWorker {
                setup: self.setup,
                number: worker as u32,
            };
            let run = &mut self.runs[worker];
            run.turn_if_covered(who, request)?;
        }
        Ok(())
    }

    // Every worker ends.
    fn end_all(&mut self) -> Result<(), NoMemory>
        requires { AreOpen self.old.runs.items }
        ensures ended { OnOk result (AllGain (setup_view self.old.setup.now)
            (end_block (setup_view self.old.setup.now).job)
            self.old.runs.items self.new.runs.items) }
        ensures same { OnOk result (SameBesideRuns self.old self.new) }
    {
        for worker in 0..self.runs.len() {
            let who = SetupWorker {
                setup: self.setup,
                number: worker as u32,
            };
            let run = &mut self.runs[worker];
            run.end(who)?;
        }
        Ok(())
    }

    /// Ends all workers and the feeder. Returns what they leave.
    pub fn finish(mut self) -> Result<Left, NoMemory>
        requires { AreOpen self.runs.items }
        ensures { IfOk result (HasLeft self.entry) }
    {
        self.end()?;
        let Executor {
            alloc,
            runs,
            feeds,
            ..
        } = self;
        left_by(alloc, feeds, runs)
    }

    // Every worker ends, and the feeder stops.
    fn end(&mut self) -> Result<(), NoMemory>
        requires { AreOpen self.old.runs.items }
        ensures ended { OnOk result (AllGain (setup_view self.old.setup.now)
            (end_block (setup_view self.old.setup.now).job)
            self.old.runs.items self.new.runs.items) }
        ensures stopped { OnOk result (self.new.feeds
            ≡ self.old.feeds ++ Stopped ∷ []) }
        ensures same { OnOk result (self.new.setup.now ≡ self.old.setup.now) }
    {
        self.end_all()?;
        self.feeds.push(Feed::Stopped)?;
        Ok(())
    }
}

/// What a run leaves: what the feeder did, and the journal and the counts of each worker.
#[derive(Drop)]
pub struct Left {
    pub feeds: Feeds,
    pub journals: Journals,
    pub states: States,
}

fn empty_runs(alloc: Global, workers: usize) -> Result<Vec<WorkerRun>, NoMemory>
    ensures { IfOk result (λ runs. runs.items ≡ replicate workers empty_run) }
{
    let mut runs = Vec::new(alloc);
    for _worker in 0..workers {
        runs.push(WorkerRun::new(alloc))?;
    }
    Ok(runs)
}

// What workers and a feeder with this feed leave.
fn left_by(alloc: Global, feeds: Feeds, runs: Vec<WorkerRun>) -> Result<Left, NoMemory>
    ensures feeds { IfOk result (λ left. left.feeds ≡ feeds) }
    ensures journals { IfOk result (λ left. left.journals ≡ map journal_of runs.items) }
    ensures states { IfOk result (λ left. left.states ≡ map counts_of runs.items) }
{
    let mut left = Left {
        feeds,
        journals: Journals::new(alloc),
        states: States::new(alloc),
    };
    for run in runs {
        let WorkerRun { journal, state } = run;
        let WorkerState { counts, .. } = state;
        left.journals.push(journal)?;
        left.states.push(counts)?;
    }
    Ok(left)
}
