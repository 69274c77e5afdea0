// Whether functions fit the columns and tables of a job.
ghost use Rattle.std.specs.Prelude.{◌≡◌, ◌≤◌, length};
ghost use Rattle.std.specs.List.{list_all};
ghost use Rattle.jobs.specs.Columns.{has_column, holds, is_amount, is_text, kind_at};
ghost use Rattle.jobs.specs.Places.{FindsFailure};
ghost use Rattle.jobs.specs.Fits.{cond_fits, fits_columns, fits_table, is_tested, operand_fits};
ghost use Rattle.jobs.specs.Fits.{step_fits};

use crate::tables::table_fits;
use crate::{Column, ColumnKind, Cond, Func, NodeDef, Operand, Step, Table, Test};
use flow_dag::MAX_NODES;
use tuple_trace::Value;

/// The first node whose function doesn't fit the columns.
pub fn wrong_columns(columns: &[Column], nodes: &[NodeDef], tables: &[Table]) -> Option<u32>
    requires { length nodes.now ≤ MAX_NODES }
    ensures { FindsFailure (λ _ node. fits_columns columns.now tables.now node.func) nodes.now
        result }
{
    for i in 0..nodes.len() {
        if !fits_columns(columns, tables, &nodes[i].func) {
            return Some(i as u32);
        }
    }
    None
}

/// The first node whose table isn't there.
pub fn wrong_table(nodes: &[NodeDef], tables: &[Table]) -> Option<u32>
    requires { length nodes.now ≤ MAX_NODES }
    ensures { FindsFailure (λ _ node. fits_table tables.now node.func) nodes.now result }
{
    for i in 0..nodes.len() {
        if !fits_table(tables, &nodes[i].func) {
            return Some(i as u32);
        }
    }
    None
}

/// Whether the columns that a function names are there and of the right kinds, and so are its
/// literals and the values of its table.
pub fn fits_columns(columns: &[Column], tables: &[Table], func: &Func) -> bool
    ensures { result ≡ fits_columns columns.now tables.now func.now }
{
    match func {
        Func::Source | Func::Replicate => true,
        Func::Filter(conds) => conds_fit(columns, conds.as_slice()),
        Func::Map(steps) => steps_fit(columns, steps.as_slice()),
        Func::Enrich(lookup) => {
            let kind = kind_at(columns, lookup.into);
            is_text(kind_at(columns, lookup.key))
                && holds(kind, &lookup.other)
                && table_fits(kind, tables.get(lookup.table as usize))
        }
        Func::Count(count) => {
            is_text(kind_at(columns, count.key))
                && operand_fits(columns, count.add)
                && is_amount(kind_at(columns, count.into))
        }
        Func::Dedupe(dedupe) => is_text(kind_at(columns, dedupe.key)),
        Func::Clamp(clamp) => is_amount(kind_at(columns, clamp.on)),
        Func::Split(split) => is_text(kind_at(columns, split.on)),
        Func::Sink(listed) => has_columns(columns, listed.as_slice()),
    }
}

/// Whether the table that a function names is there.
pub fn fits_table(tables: &[Table], func: &Func) -> bool
    ensures { result ≡ fits_table tables.now func.now }
{
    match func {
        Func::Enrich(lookup) => (lookup.table as usize) < tables.len(),
        _ => true,
    }
}

fn conds_fit(columns: &[Column], conds: &[Cond]) -> bool
    ensures { result ≡ list_all (cond_fits columns.now) conds.now }
{
    conds.iter().all(|cond| cond_fits(columns, cond))
}

fn cond_fits(columns: &[Column], cond: &Cond) -> bool
    ensures { result ≡ cond_fits columns.now cond.now }
{
    holds(kind_at(columns, cond.column), &cond.literal) && is_tested(cond.test, &cond.literal)
}

fn is_tested(test: Test, literal: &Value) -> bool
    ensures { result ≡ is_tested test literal.now }
{
    match literal {
        Value::Num(_) => true,
        Value::Text(_) => test.row().texts,
    }
}

fn steps_fit(columns: &[Column], steps: &[Step]) -> bool
    ensures { result ≡ list_all (step_fits columns.now) steps.now }
{
    steps.iter().all(|step| step_fits(columns, step))
}

fn step_fits(columns: &[Column], step: &Step) -> bool
    ensures { result ≡ step_fits columns.now step.now }
{
    is_amount(kind_at(columns, step.column))
        && operand_fits(columns, step.a)
        && operand_fits(columns, step.b)
}

fn operand_fits(columns: &[Column], operand: Operand) -> bool
    ensures { result ≡ operand_fits columns.now operand }
{
    match operand {
        Operand::Number(_) => true,
        Operand::Column(column) => is_amount(kind_at(columns, column)),
    }
}

fn has_columns(columns: &[Column], listed: &[u32]) -> bool
    ensures { result ≡ list_all (has_column columns.now) listed.now }
{
    listed.iter().all(|column| has_column(columns, *column))
}

fn has_column(columns: &[Column], column: u32) -> bool
    ensures { result ≡ has_column columns.now column }
{
    (column as usize) < columns.len()
}

/// The kind of the column with this number, if there is one. Takes no memory.
pub fn kind_at(columns: &[Column], column: u32) -> Option<ColumnKind>
    ensures { result ≡ kind_at columns.now column }
{
    match columns.get(column as usize) {
        Some(found) => Some(found.kind),
        None => None,
    }
}

fn is_text(kind: Option<ColumnKind>) -> bool
    ensures { result ≡ is_text kind }
{
    match kind {
        Some(ColumnKind::Text) => true,
        Some(ColumnKind::Number) | Some(ColumnKind::Cents) | None => false,
    }
}

fn is_amount(kind: Option<ColumnKind>) -> bool
    ensures { result ≡ is_amount kind }
{
    match kind {
        Some(ColumnKind::Number) | Some(ColumnKind::Cents) => true,
        Some(ColumnKind::Text) | None => false,
    }
}

/// Whether there is a column of this kind, and it may hold the value. Takes no memory.
pub fn holds(kind: Option<ColumnKind>, value: &Value) -> bool
    ensures { result ≡ holds kind value.now }
{
    match value {
        Value::Num(_) => is_amount(kind),
        Value::Text(_) => is_text(kind),
    }
}
