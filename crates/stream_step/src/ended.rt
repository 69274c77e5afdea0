// What stands after a part has ended.
ghost use Rattle.std.specs.Prelude.{◌≡◌, ◌++◌, IsTrue, length, map, nat_le};
ghost use Rattle.std.specs.List.{list_all};
ghost use Rattle.jobs.specs.Job.{job_view};
ghost use Rattle.versions.specs.Judged.{AreAccepted};
ghost use Rattle.versions.specs.declared.request.Request.{Request};
ghost use Rattle.flow_model.specs.Record.{record_view};
ghost use Rattle.flow_model.specs.Workers.{workers_in};
ghost use Rattle.savepoint.specs.Parts.{start_of};
ghost use Rattle.stream_step.specs.Pending.{SplitWithin, lifted};

use crate::stream::Stream;
use flow_model::{RunRecord, Start};
use versions::Requests;

impl Stream {
    /// The stream after a part, whose counts are moved into it. Takes no memory.
    ///
    /// `ran` is the record of the part, `last` the number of its last row, and `pending` has the
    /// requests that wait for a later part. The stream is exact as before the part.
    pub fn after_part(ran: RunRecord, last: u64, pending: Requests, exact: Option<u64>) -> Stream
        requires due { IsTrue (list_all (λ (request : Request). nat_le request.after last)
            ran.setup.judged.accepted) }
        requires accepted { AreAccepted (job_view ran.setup.job)
            (ran.setup.judged.accepted ++ map (lifted last) pending) }
        requires splits { SplitWithin ran.setup.splits pending }
        requires states { length ran.states ≡ length (workers_in (job_view ran.setup.job)) }
        ensures setup { result.setup ≡ ran.setup }
        ensures start { result.start ≡ start_of last (record_view ran) }
        ensures pending { result.pending ≡ pending }
        ensures exact { result.exact ≡ exact }
    {
        let RunRecord { setup, states, .. } = ran;
        let start = Start {
            row: last,
            turned: setup.request_count() as u64,
            states,
        };
        Stream {
            setup,
            start,
            pending,
            exact,
        }
    }
}
