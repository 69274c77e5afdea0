// The run of a stream, each part of which is a run by itself.
ghost use Rattle.std.specs.Prelude.{◌≡◌, ◌++◌, ◌∷◌, [], IfErr, IfOk, List, Some};
ghost use Rattle.audit_laws.specs.Fits.{csv_records};
ghost use Rattle.audit_parts.specs.Cut.{parts_of};
ghost use Rattle.jobs.specs.Job.{job_view};
ghost use Rattle.jobs.specs.Nodes.{AreFromSources};
ghost use Rattle.stream_replay.specs.InParts.{AreRunInParts, Records, given_in_parts};
ghost use Rattle.stream_replay.specs.Loose.{IsLooseIn};
ghost use Rattle.fries_verify.specs.inner.Again.{IsAgain};

use flow_model::RunRecord;
use fries_steps::Done;
use std::alloc::Global;
use stream_replay::{PartFault, check_parts};
use tuple_trace::Rows;

/// What was run, once the parts of the audit of these bytes are runs one after another. The error
/// names the first part that isn't, or says that memory ran out; it gives up what was run.
pub(crate) fn in_parts(
    alloc: Global,
    done: Done,
    rows: &Rows,
    bytes: &[u8],
) -> Result<Done, PartFault>
    requires { AreFromSources (job_view done.ran.setup.job) rows.now }
    ensures again { IfOk result (IsAgain done) }
    ensures parts { IfOk result (λ again. (earlier : List Records) (last : Records)
        → parts_of (csv_records bytes.now) ≡ Some (earlier ++ last ∷ [])
        → AreRunInParts (given_in_parts done.ran.setup rows.now) earlier last) }
    ensures loose { IfErr result
        (IsLooseIn (given_in_parts done.ran.setup rows.now) (csv_records bytes.now)) }
{
    let Done {
        ran,
        requests,
        refused,
        serial,
        row,
    } = done;
    let RunRecord {
        setup,
        feeds,
        journals,
        states,
    } = ran;
    let setup = check_parts(alloc, setup, rows, bytes)?;
    let ran = RunRecord {
        setup,
        feeds,
        journals,
        states,
    };
    Ok(Done {
        ran,
        requests,
        refused,
        serial,
        row,
    })
}
