// Filters of repeats. Out of memory, `out` and the counts are as before.
ghost use Rattle.std.specs.Prelude.{◌≡◌, ◌++◌, OnOk, OnErr};
ghost use Rattle.std.specs.FinMap as finite;
ghost use Rattle.operators.specs.Dedupe.{deduped, met_after};
ghost use Rattle.operators.specs.Fields.{text_at as text_of};

use crate::fields::text_at;
use crate::output::{Output, Outs};
use jobs::{Column, DedupeBy};
use keyed_state::Keyed;
use tuple_trace::{NoMemory, Tuple, Visit};

/// Sends the tuple to port 0 if it is the first of the text in `key` that the node meets, and ends
/// it if not. No column is written. The count of the text grows by 1.
///
/// A `key` that the tuple doesn't have as a text is read as the empty text. Counts that a savepoint
/// brings count too: a text with a count above 0 has been met.
pub fn dedupe(
    columns: &[Column],
    visit: Visit,
    dedupe: &DedupeBy,
    state: &mut Keyed,
    tuple: &Tuple,
    out: &mut Outs,
) -> Result<(), NoMemory>
    ensures ok { OnOk result (out.new ≡ out.old ++ deduped columns.now visit dedupe.now state.old
        tuple.now) }
    ensures counts { OnOk result (state.new ≡ finite.insert state.old
        (text_of columns.now tuple.now.fields dedupe.now.key)
        (met_after columns.now dedupe.now state.old tuple.now)) }
    ensures err { OnErr result (out.new ≡ out.old) }
    ensures err_counts { OnErr result (state.new ≡ state.old) }
{
    let key = text_at(columns, tuple.fields.as_slice(), dedupe.key);
    let before = out.len();
    if state.raised(key, 1) <= 1 {
        let tuple = tuple.visiting(visit)?;
        out.push(Output { port: 0, tuple })?;
    }
    if state.add(key, 1).is_err() {
        out.truncate(before);
        return Err(NoMemory);
    }
    Ok(())
}
