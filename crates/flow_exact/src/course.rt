// A run in parts, between two of them.
ghost use Rattle.std.specs.Prelude.{◌≡◌, IfOk};
ghost use Rattle.flow_model.specs.Record.{record_view};
ghost use Rattle.savepoint.specs.Parts.{start_of};
ghost use Rattle.flow_exact.specs.inner.Course.{after_trail, ran_of};

use crate::trail::{Trail, joined_trails};
use flow_model::{RunRecord, Setup, Start};
use std::alloc::Global;
use tuple_trace::NoMemory;

/// What was run in parts so far, and where the next part begins.
#[derive(Drop)]
pub(crate) struct Course {
    /// The setup, with the requests that were issued so far.
    pub setup: Setup,
    /// What the parts left, joined.
    pub trail: Trail,
    /// Where the next part begins. Its row is the number of rows that were fed so far.
    pub start: Start,
}

impl Course {
    /// The course after a part that ended after row `row`, as if it were the only one. Takes no
    /// memory.
    pub fn of_part(ran: RunRecord, row: u64) -> Course
        ensures setup { result.setup ≡ ran.setup }
        ensures start { result.start ≡ start_of row (record_view ran) }
        ensures ran { ran_of result ≡ record_view ran }
    {
        let RunRecord {
            setup,
            feeds,
            journals,
            states,
        } = ran;
        let start = Start {
            row,
            turned: setup.request_count() as u64,
            states,
        };
        Course {
            setup,
            trail: Trail { feeds, journals },
            start,
        }
    }

    /// The course with what earlier parts left before its own. The one error is out of memory; it
    /// gives up both.
    pub fn after(self, alloc: Global, earlier: Trail) -> Result<Course, NoMemory>
        ensures setup { IfOk result (λ course. course.setup ≡ self.setup) }
        ensures start { IfOk result (λ course. course.start ≡ self.start) }
        ensures ran { IfOk result (λ course. ran_of course ≡ after_trail earlier (ran_of self)) }
    {
        let Course {
            setup,
            trail,
            start,
        } = self;
        let trail = joined_trails(alloc, earlier, trail)?;
        Ok(Course {
            setup,
            trail,
            start,
        })
    }

    /// The record of all parts. Takes no memory.
    pub fn record(self) -> RunRecord
        ensures setup { result.setup ≡ self.setup }
        ensures ran { record_view result ≡ ran_of self }
    {
        let Course {
            setup,
            trail: Trail { feeds, journals },
            start: Start { states, .. },
        } = self;
        RunRecord {
            setup,
            feeds,
            journals,
            states,
        }
    }
}
