// Splits. Out of memory, `out` is as before.
ghost use Rattle.std.specs.Prelude.{◌≡◌, ◌++◌, IfOk, OnOk, OnErr, length, take};
ghost use Rattle.tuple_trace.specs.declared.value.Value.TheVariants.{Text};
ghost use Rattle.operators.specs.Fields.{written_at as written_of};
ghost use Rattle.operators.specs.Sent.{born as born_of, visited, with_fields};
ghost use Rattle.operators.specs.Split.{split_up};

use crate::fields::{text_at, written_at};
use crate::output::{Output, Outs, remade};
use crate::pieces::cut;
use jobs::{Column, SplitBy};
use std::alloc::Global;
use tuple_trace::{NoMemory, Tuple, Txt, Value, Visit};

/// Cuts the text in `on` at every byte `by`, and sends a tuple to port 0 for each of the first
/// `most` pieces. The column `on` is written: it becomes the piece, whose number is the last birth,
/// from 0.
///
/// An `on` that the tuple doesn't have as a text is cut as the empty text, which is one piece, and
/// isn't written.
pub fn split(
    alloc: Global,
    columns: &[Column],
    visit: Visit,
    split: &SplitBy,
    tuple: &Tuple,
    out: &mut Outs,
) -> Result<(), NoMemory>
    ensures ok { OnOk result (out.new ≡ out.old ++ split_up columns.now visit split.now tuple.now) }
    ensures err { OnErr result (out.new ≡ out.old) }
{
    let before = out.len();
    if send_pieces(alloc, columns, visit, split, tuple, out).is_err() {
        out.truncate(before);
        return Err(NoMemory);
    }
    Ok(())
}

fn send_pieces(
    alloc: Global,
    columns: &[Column],
    visit: Visit,
    split: &SplitBy,
    tuple: &Tuple,
    out: &mut Outs,
) -> Result<(), NoMemory>
    ensures ok { OnOk result (out.new ≡ out.old ++ split_up columns.now visit split.now tuple.now) }
    ensures err { OnErr result (take (length out.old) out.new ≡ out.old) }
{
    let mut left = Some(text_at(columns, tuple.fields.as_slice(), split.on));
    for number in 0..split.most {
        let Some(text) = left else {
            break;
        };
        let (piece, rest) = cut(text, split.by);
        let tuple = piece_of(alloc, columns, visit, split.on, (number, piece), tuple)?;
        out.push(Output { port: 0, tuple })?;
        left = rest;
    }
    Ok(())
}

// The tuple with a piece in a column, and the number of the piece as its last birth.
fn piece_of(
    alloc: Global,
    columns: &[Column],
    visit: Visit,
    on: u32,
    numbered: (u32, &[u8]),
    tuple: &Tuple,
) -> Result<Tuple, NoMemory>
    ensures { let fields = written_of columns.now tuple.now.fields on (Text numbered.entry.1.now) in
        IfOk result (λ made. made ≡ visited visit
        (born_of numbered.entry.0 (with_fields fields tuple.now))) }
{
    let (number, piece) = numbered;
    let value = Value::Text(Txt::from_slice(alloc, piece)?);
    let fields = written_at(alloc, columns, &tuple.fields, on, value)?;
    let birth = tuple.birth.with(alloc, number)?;
    remade(tuple, visit, birth, fields)
}
