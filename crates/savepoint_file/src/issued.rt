ghost use Rattle.std.specs.Prelude.{◌≡◌, filter, length};
ghost use Rattle.flow_model.specs.Requests.{afters};
ghost use Rattle.flow_model.specs.Setup.{setup_view};
ghost use Rattle.savepoint.specs.Parts.{issued_up_to as issued_up_to_of};
ghost use Rattle.savepoint_file.specs.Steps.{is_issued_up_to};

use flow_model::Setup;
use versions::Request;

/// How many accepted requests are issued up to the row `row`, of `rows` rows. Takes no memory.
///
/// A request is issued after the row that it waits for, and after the last row if there are fewer.
pub fn issued_up_to(setup: &Setup, row: u64, rows: u64) -> u64
    ensures { result ≡ issued_up_to_of row rows (afters (setup_view setup.now).requests) }
{
    issued_in(setup.judged.accepted.as_slice(), row, rows) as u64
}

fn issued_in(requests: &[Request], row: u64, rows: u64) -> usize
    ensures { result ≡ length (filter (is_issued_up_to row rows) requests.now) }
{
    requests
        .iter()
        .filter(|request| request.after.min(rows) <= row)
        .count()
}
