// Counts. Out of memory, `out` and the counts are as before.
ghost use Rattle.std.specs.Prelude.{◌≡◌, ◌++◌, OnOk, OnErr};
ghost use Rattle.std.specs.FinMap as finite;
ghost use Rattle.operators.specs.Count.{count_after, counted};
ghost use Rattle.operators.specs.Fields.{text_at as text_of};

use crate::arithmetic::number_of;
use crate::fields::{text_at, write_number};
use crate::output::{Output, Outs};
use jobs::{Column, CountBy};
use keyed_state::Keyed;
use tuple_trace::{NoMemory, Tuple, Visit};

/// Sends the tuple to port 0. The count of the text in `key` grows by `add`, and the column `into`
/// is written: it becomes the count.
///
/// A `key` that the tuple doesn't have as a text counts as the empty text, and an `add` that it
/// doesn't have as a number as 0. An `into` that it doesn't have as a number isn't written.
pub fn count(
    columns: &[Column],
    visit: Visit,
    count: &CountBy,
    state: &mut Keyed,
    tuple: &Tuple,
    out: &mut Outs,
) -> Result<(), NoMemory>
    ensures ok { OnOk result (out.new ≡ out.old ++ counted columns.now visit count.now state.old
        tuple.now) }
    ensures counts { OnOk result (state.new ≡ finite.insert state.old
        (text_of columns.now tuple.now.fields count.now.key)
        (count_after columns.now count.now state.old tuple.now)) }
    ensures err { OnErr result (out.new ≡ out.old) }
    ensures err_counts { OnErr result (state.new ≡ state.old) }
{
    let key = text_at(columns, tuple.fields.as_slice(), count.key);
    let add = number_of(columns, tuple.fields.as_slice(), count.add);
    let mut made = tuple.visiting(visit)?;
    write_number(columns, &mut made, count.into, state.raised(key, add))?;
    let before = out.len();
    out.push(Output {
        port: 0,
        tuple: made,
    })?;
    if state.add(key, add).is_err() {
        out.truncate(before);
        return Err(NoMemory);
    }
    Ok(())
}
