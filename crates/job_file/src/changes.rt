ghost use Rattle.std.specs.Prelude.{◌≡◌, ◌≢◌, Ok, Err, IfOk, IfErr};
ghost use Rattle.toml.specs.View.{items_view, table_view, view};
ghost use Rattle.jobs.specs.Job.{job_view};
ghost use Rattle.job_file.specs.Changes.{carry_in, change_in, change_of, from_in, func_of_change};
ghost use Rattle.job_file.specs.Document.{all_of};

use crate::carries::read_carry;
use crate::document::{member, table, text_at, whole_at};
use crate::fault::{FormFault, Part};
use crate::funcs::read_func;
use crate::kinds::read_kind;
use crate::names::node_named;
use jobs::{Func, Job};
use keyed_state::Carry;
use std::alloc::Global;
use toml::{Table as Members, Value as Toml};
use versions::{Change, Changes};

/// The changes of a request.
pub(crate) fn read_changes(alloc: Global, job: &Job, items: &[Toml]) -> Result<Changes, FormFault>
    ensures ok { IfOk result (λ changes. all_of (change_of (job_view job.now))
        (items_view items.now) ≡ Ok changes) }
    ensures fault { IfErr result (λ fault. fault ≢ FormFault.NoMemory
        → all_of (change_of (job_view job.now)) (items_view items.now) ≡ Err fault) }
{
    let mut list = Changes::new(alloc);
    for item in items {
        list.push(read_change(alloc, job, item)?)?;
    }
    Ok(list)
}

fn read_change(alloc: Global, job: &Job, item: &Toml) -> Result<Change, FormFault>
    ensures ok { IfOk result (λ change. change_of (job_view job.now) (view item.now) ≡ Ok change) }
    ensures fault { IfErr result (λ fault. fault ≢ FormFault.NoMemory
        → change_of (job_view job.now) (view item.now) ≡ Err fault) }
{
    change_from(alloc, job, table(item, Part::Change)?)
}

fn change_from(alloc: Global, job: &Job, members: &Members) -> Result<Change, FormFault>
    ensures ok { IfOk result (λ change. change_in (job_view job.now) (table_view members.now)
        ≡ Ok change) }
    ensures fault { IfErr result (λ fault. fault ≢ FormFault.NoMemory
        → change_in (job_view job.now) (table_view members.now) ≡ Err fault) }
{
    let name = text_at(members, "node", Part::Node)?;
    let from = read_from(members)?;
    let func = read_func_of_change(alloc, job, members)?;
    let carry = carry_or_keep(members)?;
    Ok(Change {
        node: node_named(job.nodes.as_slice(), name.as_bytes()),
        from,
        func,
        carry,
    })
}

fn read_from(members: &Members) -> Result<u64, FormFault>
    ensures ok { IfOk result (λ from. from_in (table_view members.now) ≡ Ok from) }
    ensures fault { IfErr result (λ fault. from_in (table_view members.now) ≡ Err fault) }
{
    let from = whole_at(members, "from", Part::From)?;
    if from < 0 {
        return Err(FormFault::Shape(Part::From));
    }
    Ok(from as u64)
}

fn read_func_of_change(alloc: Global, job: &Job, members: &Members) -> Result<Func, FormFault>
    ensures ok { IfOk result (λ func. func_of_change (job_view job.now) (table_view members.now)
        ≡ Ok func) }
    ensures fault { IfErr result (λ fault. fault ≢ FormFault.NoMemory
        → func_of_change (job_view job.now) (table_view members.now) ≡ Err fault) }
{
    let kind = read_kind(members)?;
    read_func(
        alloc,
        job.columns.as_slice(),
        job.tables.as_slice(),
        &["node", "from", "kind", "carry"],
        kind,
        members,
    )
}

fn carry_or_keep(members: &Members) -> Result<Carry, FormFault>
    ensures ok { IfOk result (λ carry. carry_in (table_view members.now) ≡ Ok carry) }
    ensures fault { IfErr result (λ fault. carry_in (table_view members.now) ≡ Err fault) }
{
    match member(members, "carry") {
        Some(value) => read_carry(value),
        None => Ok(Carry::Keep),
    }
}
