// A record as the default writer of `csv` writes it.
ghost use Rattle.std.specs.Prelude.{◌≡◌, ◌<◌, ◌++◌, ◌∷◌, [], OnOk, drop, length};
ghost use Rattle.csv.specs.Records.{fields_of};
ghost use Rattle.csv.specs.Writing.{default_writer, escaped, field_text, fields_text, is_blank};
ghost use Rattle.csv.specs.Writing.{needs_quotes, quoted};
ghost use Rattle.sink_journal.specs.Records.{record_text};

use crate::cells::cell;
use csv::ByteRecord;
use tuple_trace::{Bytes, NoMemory};

/// Appends a record to a text as the default writer of `csv` writes it, with a line feed.
pub fn write_record(text: &mut Bytes, cells: &ByteRecord) -> Result<(), NoMemory>
    ensures { OnOk result (text.new ≡ text.old ++ record_text (fields_of cells.now)) }
{
    if is_blank(cells) {
        return text.extend_from_slice(b"\"\"\n");
    }
    write_field(text, cell(cells, 0))?;
    write_later(text, cells)?;
    text.push(b'\n')
}

// Whether the record has no field, or one without bytes.
fn is_blank(cells: &ByteRecord) -> bool
    ensures { result ≡ is_blank default_writer (fields_of cells.now) }
{
    cells.len() < 2 && cell(cells, 0).is_empty()
}

// Appends the fields after the first, each after a comma.
fn write_later(text: &mut Bytes, cells: &ByteRecord) -> Result<(), NoMemory>
    ensures { OnOk result (text.new ≡
        text.old ++ fields_text default_writer (drop 1 (fields_of cells.now))) }
{
    for place in 1..cells.len() {
        text.push(b',')?;
        write_field(text, cell(cells, place))?;
    }
    Ok(())
}

fn write_field(text: &mut Bytes, field: &[u8]) -> Result<(), NoMemory>
    ensures { OnOk result (text.new ≡ text.old ++ field_text default_writer field.now) }
{
    if asks_for_quotes(field) {
        return write_quoted(text, field);
    }
    text.extend_from_slice(field)
}

fn asks_for_quotes(field: &[u8]) -> bool
    ensures { result ≡ needs_quotes default_writer field.now }
{
    field
        .iter()
        .any(|byte| matches!(*byte, b',' | b'"' | b'\r' | b'\n'))
}

// Appends a field between quotes. Each quote in it is written twice.
fn write_quoted(text: &mut Bytes, field: &[u8]) -> Result<(), NoMemory>
    ensures { OnOk result (text.new ≡ text.old ++ quoted default_writer field.now) }
{
    text.push(b'"')?;
    for byte in field {
        write_escaped(text, *byte)?;
    }
    text.push(b'"')
}

fn write_escaped(text: &mut Bytes, byte: u8) -> Result<(), NoMemory>
    ensures { OnOk result (text.new ≡ text.old ++ escaped default_writer (byte ∷ [])) }
{
    if byte == b'"' {
        return text.extend_from_slice(b"\"\"");
    }
    text.push(byte)
}
