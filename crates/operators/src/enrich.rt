// Enriches. Out of memory, `out` is as before.
ghost use Rattle.std.specs.Prelude.{◌≡◌, ◌++◌, IfOk, OnOk, OnErr, option_copied};
ghost use Rattle.jobs.specs.Job.{job_view};
ghost use Rattle.operators.specs.Enrich.{enriched, enriched_fields as fields_enriched};
ghost use Rattle.operators.specs.Enrich.{looked_up as found_in};

use crate::fields::{copied, text_at, written_at};
use crate::output::{Output, Outs, remade};
use jobs::{Column, Job, Lookup, Table};
use std::alloc::Global;
use tuple_trace::{Fields, NoMemory, Tuple, Value, Visit};

/// Sends the tuple to port 0. The column `into` is written: it becomes what the table holds for the
/// text in `key`, and `other` if the table holds nothing for it.
///
/// A `key` that the tuple doesn't have as a text is read as the empty text. An `into` that the
/// tuple doesn't have in its kind isn't written.
pub fn enrich(
    alloc: Global,
    job: &Job,
    visit: Visit,
    lookup: &Lookup,
    tuple: &Tuple,
    out: &mut Outs,
) -> Result<(), NoMemory>
    ensures ok { let job = job_view job.now in
        OnOk result (out.new ≡ out.old ++ enriched job.columns job.tables visit lookup.now
        tuple.now) }
    ensures err { OnErr result (out.new ≡ out.old) }
{
    let (columns, tables) = (job.columns.as_slice(), job.tables.as_slice());
    let fields = enriched_fields(alloc, columns, tables, lookup, &tuple.fields)?;
    let tuple = remade(tuple, visit, tuple.birth.clone()?, fields)?;
    out.push(Output { port: 0, tuple })
}

fn enriched_fields(
    alloc: Global,
    columns: &[Column],
    tables: &[Table],
    lookup: &Lookup,
    fields: &Fields,
) -> Result<Fields, NoMemory>
    ensures { IfOk result (λ made. made ≡ fields_enriched columns.now tables.now lookup.now
        fields.now) }
{
    let key = text_at(columns, fields.as_slice(), lookup.key);
    let table = tables.get(lookup.table as usize);
    let value = copied(looked_up(table, key, &lookup.other))?;
    written_at(alloc, columns, fields, lookup.into, value)
}

fn looked_up<'a>(table: Option<&'a Table>, key: &[u8], other: &'a Value) -> &'a Value
    ensures { result.now ≡ found_in (option_copied table.entry) key.now other.now }
{
    match table {
        Some(found) => found.entries.get(key).unwrap_or(other),
        None => other,
    }
}
