// Whether a tuple was fed under an earlier request.
ghost use Rattle.std.specs.Prelude.{◌<◌, ◌↔◌, IsTrue};
ghost use Rattle.flow_model.specs.Feeding.{feed_from};
ghost use Rattle.flow_model.specs.Requests.{afters};
ghost use Rattle.flow_model.specs.Setup.{setup_view};
ghost use Rattle.audit_laws.specs.Drafted.{issued_before};

use flow_model::{Setup, Start};

/// Whether fewer requests than this number are issued before the row is fed, if the rows after
/// those of the start are fed, up to `rows`. Before a row that isn't fed none counts.
pub(crate) fn is_fed_before(setup: &Setup, start: &Start, rows: u64, row: u64, request: u64) -> bool
    ensures { IsTrue result ↔ (issued_before row start.now.turned
        (feed_from start.now.row start.now.turned (afters (setup_view setup.now).requests) rows)
        < request) }
{
    if request == 0 {
        return false;
    }
    if row <= start.row || row > rows {
        return true;
    }
    if request <= start.turned {
        return false;
    }
    if request > setup.request_count() as u64 {
        return true;
    }
    row <= setup.after(request)
}
