// A part of a stream.
ghost use Rattle.std.specs.Prelude.{◌≡◌, ◌≤◌, ◌++◌, IfOk, IsTrue, List, length, map, nat_le};
ghost use Rattle.std.specs.List.{list_all};
ghost use Rattle.jobs.specs.Job.{job_view};
ghost use Rattle.versions.specs.Judged.{AreAccepted};
ghost use Rattle.versions.specs.declared.request.Request.{Request};
ghost use Rattle.flow_model.specs.Planned.{IsFollowed};
ghost use Rattle.flow_model.specs.Setup.{setup_view};
ghost use Rattle.flow_model.specs.Workers.{workers_in};
ghost use Rattle.stream_step.specs.Parts.{due_in, left_by_parts};
ghost use Rattle.stream_step.specs.Pending.{AreAsked, SplitWithin, lifted};

use crate::pending::{Parted, all_lifted, parted_by};
use crate::stream::Stream;
use flow_model::{Setup, Start};
use std::alloc::Global;
use stream_law::later_requests_are_judged_later;
use tuple_trace::NoMemory;
use versions::{
    Judged, Refusals, Requests, accepted_requests_are_in_order, accepted_requests_may_wait,
};

/// What the next part of a stream is run by, and what is kept until it has ended.
///
/// Its type keeps what a run from the start asks of the setup, and what the stream keeps after row
/// `last`.
#[derive(Drop)]
pub struct NextPart {
    /// The setup, with the requests that are issued in the part.
    pub setup: Setup,
    /// Where the part begins.
    pub start: Start,
    /// The accepted requests that wait for a later part, as they were asked.
    pub pending: Requests,
    /// The number of the part's last row, in the stream.
    pub last: u64,
    ghost within: { start.row ≤ last },
    ghost turned: { start.turned ≤ length setup.judged.accepted },
    ghost states: { length start.states ≡ length (workers_in (job_view setup.job)) },
    ghost due: { IsTrue (list_all (λ (request : Request). nat_le request.after last)
        setup.judged.accepted) },
    ghost accepted: { AreAccepted (job_view setup.job)
        (setup.judged.accepted ++ map (lifted last) pending) },
    ghost splits: { SplitWithin setup.splits pending },
}

/// What the last part of a stream is run by: all requests that were pending are issued in it.
///
/// Its type keeps what a run from the start asks of the setup.
#[derive(Drop)]
pub struct LastPart {
    /// The setup, with all accepted requests.
    pub setup: Setup,
    /// Where the part begins.
    pub start: Start,
    ghost turned: { start.turned ≤ length setup.judged.accepted },
    ghost states: { length start.states ≡ length (workers_in (job_view setup.job)) },
}

impl Stream {
    /// The next part of the stream, up to row `last`. It has the pending requests that ask for a
    /// row up to there; in an exact stream, only a part without a row has requests. Each of them
    /// waits for the last row that was fed, or for a later row that it asks for. The one error is
    /// out of memory; it gives up the stream.
    pub fn next_part(self, alloc: Global, last: u64) -> Result<NextPart, NoMemory>
        requires { self.start.row ≤ last }
        ensures followed { IfOk result (λ part. IsFollowed (setup_view self.setup)
            (map (lifted self.start.row) (due_in self last)) (setup_view part.setup)) }
        ensures refused { IfOk result (λ part.
            part.setup.judged.refused ≡ self.setup.judged.refused) }
        ensures start { IfOk result (λ part. part.start ≡ self.start) }
        ensures last { IfOk result (λ part. part.last ≡ last) }
        ensures pending { IfOk result (λ part. part.pending ≡ left_by_parts self last) }
        ensures asked { IfOk result (λ part. (all : List Request)
            → AreAsked (job_view self.setup.job) self.setup.judged.accepted self.pending all
            → AreAsked (job_view part.setup.job) part.setup.judged.accepted part.pending all) }
    {
        later_requests_are_judged_later();
        accepted_requests_are_in_order();
        accepted_requests_may_wait();
        let Stream {
            setup,
            start,
            pending,
            exact,
        } = self;
        let Parted { due, left } = parted_by(alloc, exact, pending, last, start.row)?;
        let later = Judged {
            accepted: due,
            refused: Refusals::new(alloc),
        };
        let setup = setup.follow(alloc, later)?;
        Ok(NextPart {
            setup,
            start,
            pending: left,
            last,
        })
    }

    /// The last part of the stream. It has all pending requests, so those that ask for a row that
    /// never comes are issued after the last row. The one error is out of memory; it gives up the
    /// stream.
    pub fn last_part(self, alloc: Global) -> Result<LastPart, NoMemory>
        ensures followed { IfOk result (λ part. IsFollowed (setup_view self.setup)
            (map (lifted self.start.row) self.pending) (setup_view part.setup)) }
        ensures refused { IfOk result (λ part.
            part.setup.judged.refused ≡ self.setup.judged.refused) }
        ensures start { IfOk result (λ part. part.start ≡ self.start) }
    {
        let Stream {
            setup,
            start,
            pending,
            ..
        } = self;
        let later = Judged {
            accepted: all_lifted(alloc, pending, start.row)?,
            refused: Refusals::new(alloc),
        };
        let setup = setup.follow(alloc, later)?;
        Ok(LastPart { setup, start })
    }
}
