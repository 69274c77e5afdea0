ghost use Rattle.std.specs.Prelude.{◌≡◌, ◌≢◌, Ok, Err, IfOk, IfErr};
ghost use Rattle.toml.specs.View.{items_view, view};
ghost use Rattle.job_file.specs.Columns.{column_of, column_text, ending_of};
ghost use Rattle.job_file.specs.Document.{all_of};

use crate::document::text;
use crate::fault::{FormFault, Part};
use crate::names::is_name;
use jobs::{Column, ColumnDefs, ColumnKind};
use std::alloc::Global;
use toml::Value as Toml;
use tuple_trace::Txt;

/// The columns of a job.
pub(crate) fn read_columns(alloc: Global, items: &[Toml]) -> Result<ColumnDefs, FormFault>
    ensures ok { IfOk result (λ columns. all_of column_of (items_view items.now) ≡ Ok columns) }
    ensures fault { IfErr result (λ fault. fault ≢ FormFault.NoMemory
        → all_of column_of (items_view items.now) ≡ Err fault) }
{
    let mut list = ColumnDefs::new(alloc);
    for item in items {
        list.push(read_column(alloc, item)?)?;
    }
    Ok(list)
}

fn read_column(alloc: Global, item: &Toml) -> Result<Column, FormFault>
    ensures ok { IfOk result (λ column. column_of (view item.now) ≡ Ok column) }
    ensures fault { IfErr result (λ fault. fault ≢ FormFault.NoMemory
        → column_of (view item.now) ≡ Err fault) }
{
    column_from(alloc, text(item, Part::Columns)?)
}

fn column_from(alloc: Global, text: &str) -> Result<Column, FormFault>
    ensures ok { IfOk result (λ column. column_text text.now ≡ Ok column) }
    ensures fault { IfErr result (λ fault. fault ≢ FormFault.NoMemory
        → column_text text.now ≡ Err fault) }
{
    let Some((name, ending)) = text.split_once(':') else {
        return Err(FormFault::Shape(Part::Columns));
    };
    if !is_name(name.as_bytes()) {
        return Err(FormFault::Shape(Part::Columns));
    }
    let Some((kind, own)) = read_ending(ending) else {
        return Err(FormFault::Shape(Part::Columns));
    };
    let name = Txt::from_slice(alloc, name.as_bytes())?;
    Ok(Column { name, kind, own })
}

fn read_ending(ending: &str) -> Option<(ColumnKind, bool)>
    ensures { result ≡ ending_of ending.now }
{
    match ending {
        "text" => Some((ColumnKind::Text, false)),
        "number" => Some((ColumnKind::Number, false)),
        "cents" => Some((ColumnKind::Cents, false)),
        "text:own" => Some((ColumnKind::Text, true)),
        "number:own" => Some((ColumnKind::Number, true)),
        "cents:own" => Some((ColumnKind::Cents, true)),
        _ => None,
    }
}
