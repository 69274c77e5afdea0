ghost use Rattle.std.specs.Prelude.{◌≡◌, Ok, Err, IfOk, IfErr};
ghost use Rattle.toml.specs.View.{table_view};
ghost use Rattle.job_file.specs.Kinds.{kind_in};

use crate::document::text_at;
use crate::fault::{FormFault, Part};
use jobs::Kind;
use toml::Table;

/// The kind that a table names.
pub(crate) fn read_kind(table: &Table) -> Result<Kind, FormFault>
    ensures ok { IfOk result (λ kind. kind_in (table_view table.now) ≡ Ok kind) }
    ensures fault { IfErr result (λ fault. kind_in (table_view table.now) ≡ Err fault) }
{
    let word = text_at(table, "kind", Part::Kind)?;
    match Kind::named(word) {
        Some(kind) => Ok(kind),
        None => Err(FormFault::Shape(Part::Kind)),
    }
}
