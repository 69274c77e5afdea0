// What a record of an audit tells, by its first cell.
ghost use Rattle.std.specs.Prelude.{◌≡◌};
ghost use Rattle.csv.specs.Records.{fields_of};
ghost use Rattle.audit_stream.specs.Sorting.{closes as closes_in};
ghost use Rattle.audit_stream.specs.Together.{tells_step as is_step_in};
ghost use Rattle.audit_stream.specs.Together.{tells_stop as is_stop_in};

use audit_parts::begins_with;
use csv::ByteRecord;

/// Whether the feeder ended its lanes.
pub(crate) fn is_stop(cells: &ByteRecord) -> bool
    ensures { result ≡ is_stop_in (fields_of cells.now) }
{
    begins_with(cells, b"stopped")
}

/// Whether the feeder ended its lanes, or a worker took the end of a lane.
pub(crate) fn closes(cells: &ByteRecord) -> bool
    ensures { result ≡ closes_in (fields_of cells.now) }
{
    is_stop(cells) || begins_with(cells, b"ended")
}

/// Whether the record is of the feeder.
pub(crate) fn is_step(cells: &ByteRecord) -> bool
    ensures { result ≡ is_step_in (fields_of cells.now) }
{
    begins_with(cells, b"fed") || begins_with(cells, b"issued") || is_stop(cells)
}
