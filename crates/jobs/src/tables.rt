// What the tables of a job hold.
ghost use Rattle.std.specs.Prelude.{◌≡◌, option_copied};
ghost use Rattle.jobs.specs.Fits.{table_fits, values_fit};

use crate::fitting::holds;
use crate::{ColumnKind, Table};
use keyed_state::TextMap;
use tuple_trace::Value;

/// Whether a column of this kind may hold every value of the table, if there is a table.
pub fn table_fits(kind: Option<ColumnKind>, table: Option<&Table>) -> bool
    ensures { result ≡ table_fits kind (option_copied table.entry) }
{
    match table {
        Some(found) => values_fit(kind, &found.entries),
        None => true,
    }
}

fn values_fit(kind: Option<ColumnKind>, entries: &TextMap<Value>) -> bool
    ensures { result ≡ values_fit kind entries.now }
{
    entries.iter().all(|(_, value)| holds(kind, value))
}
