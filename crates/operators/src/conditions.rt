// The conditions of a filter.
ghost use Rattle.std.specs.Prelude.{◌≡◌, slice_get, option_copied};
ghost use Rattle.std.specs.List.{list_all};
ghost use Rattle.operators.specs.Conditions.{admits as admits_of, admits_text as admits_text_of};
ghost use Rattle.operators.specs.Conditions.{compares as compares_of, meets as meets_of};

use jobs::{Column, ColumnKind, Cond, Test, kind_at};
use std::cmp::Ordering;
use tuple_trace::{Value, number_in, text_in};

/// Whether fields meet all conditions.
pub fn passes(columns: &[Column], conds: &[Cond], fields: &[Value]) -> bool
    ensures { result ≡ list_all (meets_of columns.now fields.now) conds.now }
{
    conds.iter().all(|cond| meets(columns, cond, fields))
}

fn meets(columns: &[Column], cond: &Cond, fields: &[Value]) -> bool
    ensures { result ≡ meets_of columns.now fields.now cond.now }
{
    let field = fields.get(cond.column as usize);
    compares(
        kind_at(columns, cond.column),
        cond.test,
        field,
        &cond.literal,
    )
}

fn compares(kind: Option<ColumnKind>, test: Test, field: Option<&Value>, literal: &Value) -> bool
    ensures { result ≡ compares_of kind test (option_copied field.entry) literal.now }
{
    match kind {
        Some(ColumnKind::Text) => admits_text(test, text_in(field) == text_in(Some(literal))),
        Some(ColumnKind::Number | ColumnKind::Cents) => {
            admits(test, number_in(field).cmp(&number_in(Some(literal))))
        }
        None => false,
    }
}

fn admits(test: Test, order: Ordering) -> bool
    ensures { result ≡ admits_of test order }
{
    let row = test.row();
    match order {
        Ordering::Less => row.less,
        Ordering::Equal => row.equal,
        Ordering::Greater => row.greater,
    }
}

fn admits_text(test: Test, same: bool) -> bool
    ensures { result ≡ admits_text_of test same }
{
    let row = test.row();
    if !row.texts {
        false
    } else if same {
        row.equal
    } else {
        !row.equal
    }
}
