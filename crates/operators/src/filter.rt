// Filters. Out of memory, `out` is as before.
ghost use Rattle.std.specs.Prelude.{◌≡◌, ◌++◌, OnOk, OnErr};
ghost use Rattle.jobs.specs.Job.{job_view};
ghost use Rattle.operators.specs.Filter.{filtered};
ghost use Rattle.operators.specs.Ports.{out_ports};

use crate::conditions::passes;
use crate::output::{Output, Outs};
use crate::ports::has_port;
use jobs::{Cond, Job};
use tuple_trace::{NoMemory, Tuple, Visit};

/// Sends a tuple that meets all conditions to port 0, and any other to port 1 if the node has an
/// edge there. Without that edge the tuple ends at the filter. No column is written.
///
/// A column that the tuple doesn't have in its kind is compared as 0 or as the empty text. A
/// condition on a column that the job doesn't have isn't met.
pub fn filter(
    job: &Job,
    ports: &[u32],
    visit: Visit,
    conds: &[Cond],
    tuple: &Tuple,
    out: &mut Outs,
) -> Result<(), NoMemory>
    requires { ports.now ≡ out_ports (job_view job.now).edges visit.node }
    ensures ok { let job = job_view job.now in
        OnOk result (out.new ≡ out.old
        ++ filtered job.columns job.edges visit conds.now tuple.now) }
    ensures err { OnErr result (out.new ≡ out.old) }
{
    if passes(job.columns.as_slice(), conds, tuple.fields.as_slice()) {
        let tuple = tuple.visiting(visit)?;
        return out.push(Output { port: 0, tuple });
    }
    if has_port(ports, 1) {
        let tuple = tuple.visiting(visit)?;
        return out.push(Output { port: 1, tuple });
    }
    Ok(())
}
