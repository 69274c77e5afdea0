// The parts of a run in which the border of each request is its row.
ghost use Rattle.std.specs.Prelude.{◌≡◌, ◌≤◌, ◌++◌, ◌∷◌, [], IfOk, length, min, take};
ghost use Rattle.jobs.specs.Job.{job_view};
ghost use Rattle.jobs.specs.Nodes.{AreFromSources};
ghost use Rattle.versions.specs.Judged.{AreAccepted};
ghost use Rattle.flow_model.specs.Planned.{IsPlanned, extended};
ghost use Rattle.flow_model.specs.Record.{record_view};
ghost use Rattle.flow_model.specs.Run.{IsRunSince, Ran};
ghost use Rattle.flow_model.specs.Setup.{setup_view};
ghost use Rattle.flow_model.specs.Workers.{workers_in};
ghost use Rattle.savepoint.specs.Parts.{joined};
ghost use Rattle.flow_exact.specs.inner.Course.{IsCourse, ran_of};

use crate::course::Course;
use crate::waiting::grown;
use cover_planner::Plan;
use flow_engine::{Engine, run_from};
use flow_model::{RunRecord, Setup, Start};
use lane_core::Lanes;
use std::sync::Wait;
use std::thread::Threads;
use tuple_trace::{FeedRows, Gate, NoMemory, Rows};
use versions::Request;

// Runs the rows after a start up to row `row`, and the requests of the setup that weren't issued.
fn run_part<R, L: Lanes + Sync, G: Gate + Sync>(
    engine: &Engine<'_, R, L, G>,
    setup: Setup,
    rows: &Rows,
    row: u64,
    start: Start,
) -> Result<RunRecord, NoMemory>
where
    R: Threads + Wait + Sync,
    requires within { row ≤ length rows.now }
    requires sources { AreFromSources (setup_view setup).job rows.now }
    requires turned { start.turned ≤ length (setup_view setup).requests }
    requires states { length start.states ≡ length (workers_in (setup_view setup).job) }
    ensures setup { IfOk result (λ ran. ran.setup ≡ setup) }
    ensures run { IfOk result (λ ran.
        IsRunSince start (setup_view setup) (take row rows.now) (record_view ran)) }
{
    let front = FeedRows::behind(&rows.as_slice()[..row as usize], 0, 0);
    let flown = run_from(engine, setup, &front, start)?;
    flown.record(engine.alloc)
}

impl Course {
    /// The course after its first part, which feeds the rows up to row `row`. The setup has no
    /// request. The one error is out of memory.
    pub fn begin<R, L: Lanes + Sync, G: Gate + Sync>(
        engine: &Engine<'_, R, L, G>,
        setup: Setup,
        rows: &Rows,
        row: u64,
    ) -> Result<Course, NoMemory>
    where
        R: Threads + Wait + Sync,
        requires none { (setup_view setup).requests ≡ [] }
        requires within { row ≤ length rows.now }
        requires sources { AreFromSources (setup_view setup).job rows.now }
        ensures setup { IfOk result (λ course. course.setup ≡ setup) }
        ensures row { IfOk result (λ course. course.start.row ≡ row) }
        ensures course { IfOk result (IsCourse rows.now) }
    {
        let start = Start::first(engine.alloc, &setup)?;
        let ran = run_part(engine, setup, rows, row, start)?;
        Ok(Course::of_part(ran, row))
    }

    /// The course with a part more, which feeds the rows up to row `row`. If its setup has requests
    /// that weren't issued, the part issues them. The one error is out of memory.
    fn go_on<R, L: Lanes + Sync, G: Gate + Sync>(
        self,
        engine: &Engine<'_, R, L, G>,
        rows: &Rows,
        row: u64,
    ) -> Result<Course, NoMemory>
    where
        R: Threads + Wait + Sync,
        requires within { row ≤ length rows.now }
        requires sources { AreFromSources (setup_view self.setup).job rows.now }
        requires turned { self.start.turned ≤ length (setup_view self.setup).requests }
        requires states { length self.start.states
            ≡ length (workers_in (setup_view self.setup).job) }
        ensures setup { IfOk result (λ course. course.setup ≡ self.setup) }
        ensures row { IfOk result (λ course. course.start.row ≡ row) }
        ensures turned { IfOk result (λ course.
            course.start.turned ≡ length (setup_view self.setup).requests) }
        ensures part { IfOk result (λ course. (left : Ran)
            × IsRunSince self.start (setup_view self.setup) (take row rows.now) left
            × (ran_of course ≡ joined (setup_view self.setup) (ran_of self) left)) }
    {
        let Course {
            setup,
            trail,
            start,
        } = self;
        let ran = run_part(engine, setup, rows, row, start)?;
        Course::of_part(ran, row).after(engine.alloc, trail)
    }

    /// The course with the rows up to row `row`. The one error is out of memory.
    pub fn feed<R, L: Lanes + Sync, G: Gate + Sync>(
        self,
        engine: &Engine<'_, R, L, G>,
        rows: &Rows,
        row: u64,
    ) -> Result<Course, NoMemory>
    where
        R: Threads + Wait + Sync,
        requires course { IsCourse rows.now self }
        requires later { self.start.row ≤ row }
        requires within { row ≤ length rows.now }
        ensures setup { IfOk result (λ course. course.setup ≡ self.setup) }
        ensures row { IfOk result (λ course. course.start.row ≡ row) }
        ensures course { IfOk result (IsCourse rows.now) }
    {
        rows.are_numbered();
        if self.start.row == row {
            return Ok(self);
        }
        self.go_on(engine, rows, row)
    }

    /// The course with a part without a row, which issues a copy of this request, with this plan.
    /// The rows up to its border are fed. The one error is out of memory.
    fn issue<R, L: Lanes + Sync, G: Gate + Sync>(
        self,
        engine: &Engine<'_, R, L, G>,
        rows: &Rows,
        request: &Request,
        plan: Plan,
    ) -> Result<Course, NoMemory>
    where
        R: Threads + Wait + Sync,
        requires course { IsCourse rows.now self }
        requires border { self.start.row ≡ min request.now.after (length rows.now) }
        requires accepted { AreAccepted (job_view self.setup.job)
            (self.setup.judged.accepted ++ request.now ∷ []) }
        requires planned { ∥ IsPlanned
            (extended (setup_view self.setup) (request.now ∷ []) (plan ∷ [])) ∥₁ }
        ensures setup { IfOk result (λ course. setup_view course.setup
            ≡ extended (setup_view self.setup) (request.now ∷ []) (plan ∷ [])) }
        ensures refused { IfOk result (λ course.
            course.setup.judged.refused ≡ self.setup.judged.refused) }
        ensures row { IfOk result (λ course. course.start.row ≡ self.start.row) }
        ensures course { IfOk result (IsCourse rows.now) }
    {
        rows.are_numbered();
        let Course {
            setup,
            trail,
            start,
        } = self;
        let row = start.row;
        let setup = grown(engine.alloc, setup, request, plan)?;
        let grown = Course {
            setup,
            trail,
            start,
        };
        grown.go_on(engine, rows, row)
    }

    /// The course with the rows up to the border of this request, and then a copy of the request,
    /// with this plan. The one error is out of memory.
    pub fn pass<R, L: Lanes + Sync, G: Gate + Sync>(
        self,
        engine: &Engine<'_, R, L, G>,
        rows: &Rows,
        request: &Request,
        plan: Plan,
    ) -> Result<Course, NoMemory>
    where
        R: Threads + Wait + Sync,
        requires course { IsCourse rows.now self }
        requires wait { self.start.row ≤ request.now.after }
        requires accepted { AreAccepted (job_view self.setup.job)
            (self.setup.judged.accepted ++ request.now ∷ []) }
        requires planned { ∥ IsPlanned
            (extended (setup_view self.setup) (request.now ∷ []) (plan ∷ [])) ∥₁ }
        ensures setup { IfOk result (λ course. setup_view course.setup
            ≡ extended (setup_view self.setup) (request.now ∷ []) (plan ∷ [])) }
        ensures refused { IfOk result (λ course.
            course.setup.judged.refused ≡ self.setup.judged.refused) }
        ensures row { IfOk result (λ course.
            course.start.row ≡ min request.now.after (length rows.now)) }
        ensures course { IfOk result (IsCourse rows.now) }
    {
        let border = request.after.min(rows.len() as u64);
        let fed = self.feed(engine, rows, border)?;
        fed.issue(engine, rows, request, plan)
    }
}
