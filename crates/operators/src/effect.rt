ghost use Rattle.std.specs.Prelude.{◌≡◌, ◌++◌, OnOk, OnErr};
ghost use Rattle.jobs.specs.Job.{job_view};
ghost use Rattle.operators.specs.Meaning.{step};
ghost use Rattle.operators.specs.Ports.{out_ports};

use crate::Outs;
use crate::clamp::clamp;
use crate::count::count;
use crate::dedupe::dedupe;
use crate::enrich::enrich;
use crate::filter::filter;
use crate::map::map;
use crate::replicate::replicate;
use crate::split::split;
use jobs::{Func, Job};
use keyed_state::Keyed;
use std::alloc::Global;
use tuple_trace::{NoMemory, Tuple, Visit};

/// A node that a tuple visits.
#[derive(Clone, Copy)]
pub struct Visited<'a> {
    pub job: &'a Job,
    /// The ports of the node, as [`out_ports`](crate::out_ports) returns them.
    pub ports: &'a [u32],
    pub visit: Visit,
}

impl Visited<'_> {
    /// Appends to `out` what a function makes of a tuple at this visit, and changes the counts of
    /// the node as it says.
    ///
    /// An output has the tuple's row and `issued`, its trace followed by the visit, and its fields
    /// except for the columns that the function writes. The tuple itself stays. A column that the
    /// tuple doesn't have, or has with another kind than the job gives it, is read as 0 or as the
    /// empty text, and isn't written. Sources and sinks put out nothing. After [`NoMemory`] `out`
    /// and the counts are as before.
    pub fn apply(
        self,
        alloc: Global,
        func: &Func,
        state: &mut Keyed,
        tuple: &Tuple,
        out: &mut Outs,
    ) -> Result<(), NoMemory>
        requires { self.ports.now ≡ out_ports (job_view self.job.now).edges self.visit.node }
        ensures outputs { OnOk result (out.new ≡ out.old ++ (step (job_view self.entry.job.now)
            self.entry.visit func.now state.old tuple.now).1) }
        ensures counts { OnOk result (state.new ≡ (step (job_view self.entry.job.now)
            self.entry.visit func.now state.old tuple.now).0) }
        ensures err { OnErr result (out.new ≡ out.old) }
        ensures err_counts { OnErr result (state.new ≡ state.old) }
    {
        let Visited { job, ports, visit } = self;
        let columns = job.columns.as_slice();
        match func {
            Func::Source | Func::Sink(_) => Ok(()),
            Func::Filter(conds) => filter(job, ports, visit, conds.as_slice(), tuple, out),
            Func::Map(steps) => map(alloc, columns, visit, steps.as_slice(), tuple, out),
            Func::Enrich(lookup) => enrich(alloc, job, visit, lookup, tuple, out),
            Func::Count(by) => count(columns, visit, by, state, tuple, out),
            Func::Dedupe(by) => dedupe(columns, visit, by, state, tuple, out),
            Func::Clamp(by) => clamp(columns, visit, by, tuple, out),
            Func::Split(by) => split(alloc, columns, visit, by, tuple, out),
            Func::Replicate => replicate(alloc, ports, visit, tuple, out),
        }
    }
}
