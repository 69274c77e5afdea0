// The law that leads from what a stream has run to an audit that `verify` takes. The function proves
// its clause, and does nothing.
ghost use Rattle.std.specs.Prelude.{◌≡◌, ◌∷◌, ℕ, List};
ghost use Rattle.audit_laws.specs.Fits.{csv_records};
ghost use Rattle.flow_model.specs.Run.{Ran};
ghost use Rattle.sink_journal.specs.Audit.{audit_header};
ghost use Rattle.fries_verify.specs.Audits.{IsAudited, stream_subject};
ghost use Rattle.fries_verify.specs.Whole.{IsAskedOf, IsWholeStream, WholeStream, whole_records};

use crate::laws::streams_are_shown;
use flow_model::Setup;
use tuple_trace::Rows;
use versions::accepted_requests_are_in_order;

/// The bytes with the records of a stream that ran from its beginning to its end are the audit of a
/// run of the stream's requests and rows, as `verify` looks at it: all parts as one run, and then
/// each part by itself. The setup has to be that of the requests as they were asked, none of which
/// was issued before its row.
pub fn whole_streams_are_shown(setup: &Setup, rows: &Rows)
    ensures { (whole : WholeStream) (bytes : List ℕ) → IsWholeStream rows.now whole
        → IsAskedOf setup.now rows.now whole
        → csv_records bytes ≡ audit_header ∷ whole_records whole
        → (ran : Ran) × IsAudited (stream_subject setup.now rows.now) ran bytes }
{
    accepted_requests_are_in_order();
    streams_are_shown(setup, rows);
}
