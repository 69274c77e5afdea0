ghost use Rattle.std.specs.Prelude.{◌≡◌, ◌≢◌, Ok, Err, IfOk, IfErr};
ghost use Rattle.toml.specs.View.{items_view, view};
ghost use Rattle.job_file.specs.Conds.{cond_by, cond_in, cond_of, test_of};
ghost use Rattle.job_file.specs.Document.{all_of};

use crate::document::{items, text};
use crate::fault::{FormFault, Part};
use crate::literals::read_literal;
use crate::names::column_named;
use jobs::{Column, Cond, Conds, Test};
use std::alloc::Global;
use toml::Value as Toml;

/// The conditions of a filter.
pub(crate) fn read_conds(
    alloc: Global,
    columns: &[Column],
    items: &[Toml],
) -> Result<Conds, FormFault>
    ensures ok { IfOk result (λ conds. all_of (cond_of columns.now) (items_view items.now)
        ≡ Ok conds) }
    ensures fault { IfErr result (λ fault. fault ≢ FormFault.NoMemory
        → all_of (cond_of columns.now) (items_view items.now) ≡ Err fault) }
{
    let mut list = Conds::new(alloc);
    for item in items {
        list.push(read_cond(alloc, columns, item)?)?;
    }
    Ok(list)
}

fn read_cond(alloc: Global, columns: &[Column], item: &Toml) -> Result<Cond, FormFault>
    ensures ok { IfOk result (λ cond. cond_of columns.now (view item.now) ≡ Ok cond) }
    ensures fault { IfErr result (λ fault. fault ≢ FormFault.NoMemory
        → cond_of columns.now (view item.now) ≡ Err fault) }
{
    cond_from(alloc, columns, items(item, Part::When)?)
}

fn cond_from(alloc: Global, columns: &[Column], parts: &[Toml]) -> Result<Cond, FormFault>
    ensures ok { IfOk result (λ cond. cond_in columns.now (items_view parts.now) ≡ Ok cond) }
    ensures fault { IfErr result (λ fault. fault ≢ FormFault.NoMemory
        → cond_in columns.now (items_view parts.now) ≡ Err fault) }
{
    if parts.len() != 3 {
        return Err(FormFault::Shape(Part::When));
    }
    cond_of_three(alloc, columns, &parts[0], &parts[1], &parts[2])
}

fn cond_of_three(
    alloc: Global,
    columns: &[Column],
    column: &Toml,
    test: &Toml,
    literal: &Toml,
) -> Result<Cond, FormFault>
    ensures ok { IfOk result (λ cond. cond_by columns.now (view column.now) (view test.now)
        (view literal.now) ≡ Ok cond) }
    ensures fault { IfErr result (λ fault. fault ≢ FormFault.NoMemory
        → cond_by columns.now (view column.now) (view test.now) (view literal.now) ≡ Err fault) }
{
    let name = text(column, Part::When)?;
    let test = read_test(test)?;
    let literal = read_literal(alloc, literal, Part::When)?;
    Ok(Cond {
        column: column_named(columns, name.as_bytes()),
        test,
        literal,
    })
}

fn read_test(item: &Toml) -> Result<Test, FormFault>
    ensures ok { IfOk result (λ test. test_of (view item.now) ≡ Ok test) }
    ensures fault { IfErr result (λ fault. test_of (view item.now) ≡ Err fault) }
{
    match Test::named(text(item, Part::When)?) {
        Some(test) => Ok(test),
        None => Err(FormFault::Shape(Part::When)),
    }
}
