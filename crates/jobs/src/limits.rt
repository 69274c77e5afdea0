// Sizes and their limits.
ghost use Rattle.std.specs.Prelude.{◌≡◌, ◌≤◌, IfNone, length, min};
ghost use Rattle.jobs.specs.Limits.{HasLimits, entry_count, entry_oversize, first_oversize};
ghost use Rattle.jobs.specs.Limits.{first_oversize_of, func_oversize, kept, literal_oversize};
ghost use Rattle.jobs.specs.Limits.{outside, oversize, roof_oversize, table_oversize};
ghost use Rattle.jobs.specs.Limits.{text_oversize, value_oversize, workers_oversize};
ghost use Rattle.std.specs.FinMap as finite;
ghost use Rattle.jobs.specs.declared.func.Func.TheVariants.{Filter};
ghost use Rattle.jobs.specs.Nodes.{worker_count};
ghost use Rattle.jobs.specs.JobView.{job_view_as};

use crate::names::named_out_count;
use crate::node::{fan_out, most_roof, most_workers};
use crate::{Column, Cond, Func, NodeDef, Table, Which};
use flow_dag::{Edge, MAX_EDGES, MAX_NODES};
use keyed_state::TextMap;
use tuple_trace::Value;

/// The most columns of a job.
pub const MAX_COLUMNS: usize = 12;

/// The most workers of all nodes of a job together, without its sources.
pub const MAX_WORKERS: u64 = 64;

/// The most entries of all tables of a job together.
pub const MAX_ENTRIES: usize = 4096;

/// The most bytes of a text.
pub const TEXT_MAX: usize = 48;

/// The most conditions of a filter.
pub const MAX_CONDITIONS: usize = 8;

/// The most steps of a map.
pub const MAX_STEPS: usize = 8;

/// The most pieces that a node makes of one tuple.
pub const MAX_PIECES: u32 = 16;

/// The most that a job's work on one row may weigh.
pub const MAX_WEIGHT: u64 = 1024;

/// The first size that is outside of its limits, with its number. The order is: nodes, edges,
/// columns, the workers of each node, all workers, the entries of all tables, the texts of each
/// table, the sizes of each node's function, and the roof of each node.
pub fn first_size_fault(
    columns: &[Column],
    nodes: &[NodeDef],
    edges: &[Edge],
    tables: &[Table],
) -> Option<(Which, i64)>
    ensures fault { result ≡ first_oversize_of (job_view_as columns.now nodes.now edges.now
        tables.now) }
    ensures limits { IfNone result (HasLimits (job_view_as columns.now nodes.now edges.now
        tables.now)) }
{
    if let Some(fault) = outside(Which::Nodes, 1, MAX_NODES as u64, nodes.len() as u64) {
        return Some(fault);
    }
    if let Some(fault) = outside(Which::Edges, 0, MAX_EDGES as u64, edges.len() as u64) {
        return Some(fault);
    }
    if let Some(fault) = outside(Which::Columns, 1, MAX_COLUMNS as u64, columns.len() as u64) {
        return Some(fault);
    }
    if let Some(fault) = workers_fault(nodes) {
        return Some(fault);
    }
    if let Some(fault) = outside(Which::AllWorkers, 0, MAX_WORKERS, all_workers(nodes)) {
        return Some(fault);
    }
    if let Some(fault) = outside(Which::Entries, 0, MAX_ENTRIES as u64, entry_count(tables)) {
        return Some(fault);
    }
    if let Some(fault) = tables_fault(tables) {
        return Some(fault);
    }
    if let Some(fault) = functions_fault(nodes) {
        return Some(fault);
    }
    roofs_fault(nodes, edges)
}

/// The first size of a function that is outside of its limits, with its number: up to 8 conditions
/// or steps, 1 to 16 pieces, and up to 48 bytes of a text that is a literal or an `other`. Takes no
/// memory.
pub fn size_fault(func: &Func) -> Option<(Which, i64)>
    ensures { result ≡ oversize func.now }
{
    match func {
        Func::Filter(conds) => conds_fault(conds.as_slice()),
        Func::Map(steps) => outside(Which::Steps, 0, MAX_STEPS as u64, steps.len() as u64),
        Func::Enrich(lookup) => value_fault(&lookup.other),
        Func::Split(split) => outside(Which::Most, 1, u64::from(MAX_PIECES), u64::from(split.most)),
        _ => None,
    }
}

fn conds_fault(conds: &[Cond]) -> Option<(Which, i64)>
    ensures { result ≡ oversize (Filter conds.now) }
{
    if let Some(fault) = outside(
        Which::Conditions,
        0,
        MAX_CONDITIONS as u64,
        conds.len() as u64,
    ) {
        return Some(fault);
    }
    literals_fault(conds)
}

fn literals_fault(conds: &[Cond]) -> Option<(Which, i64)>
    ensures { result ≡ first_oversize literal_oversize conds.now }
{
    for cond in conds {
        if let Some(fault) = value_fault(&cond.literal) {
            return Some(fault);
        }
    }
    None
}

fn functions_fault(nodes: &[NodeDef]) -> Option<(Which, i64)>
    ensures { result ≡ first_oversize func_oversize nodes.now }
{
    for node in nodes {
        if let Some(fault) = size_fault(&node.func) {
            return Some(fault);
        }
    }
    None
}

fn workers_fault(nodes: &[NodeDef]) -> Option<(Which, i64)>
    ensures { result ≡ first_oversize workers_oversize nodes.now }
{
    for node in nodes {
        let most = most_workers(&node.func);
        if let Some(fault) = outside(Which::Workers, 1, u64::from(most), u64::from(node.workers)) {
            return Some(fault);
        }
    }
    None
}

fn roofs_fault(nodes: &[NodeDef], edges: &[Edge]) -> Option<(Which, i64)>
    requires { length edges.now ≤ MAX_EDGES }
    ensures { result ≡ first_oversize (roof_oversize nodes.now edges.now) nodes.now }
{
    for node in nodes {
        if let Some(fault) = roof_fault(nodes, edges, node) {
            return Some(fault);
        }
    }
    None
}

fn roof_fault(nodes: &[NodeDef], edges: &[Edge], node: &NodeDef) -> Option<(Which, i64)>
    requires { length edges.now ≤ MAX_EDGES }
    ensures { result ≡ roof_oversize nodes.now edges.now node.now }
{
    let outs = named_out_count(nodes, edges, node.name.as_slice());
    let most = most_roof(&node.func, outs);
    let least = fan_out(&node.func);
    outside(
        Which::Roof,
        u64::from(least),
        u64::from(most),
        u64::from(node.roof),
    )
}

// The workers of all nodes that aren't sources.
pub fn all_workers(nodes: &[NodeDef]) -> u64
    requires { length nodes.now ≤ MAX_NODES }
    ensures { result ≡ worker_count nodes.now }
{
    let mut sum = 0u64;
    for node in nodes {
        sum += u64::from(node.journal_count());
    }
    sum
}

// How many entries the tables have together, cut to 64 bits.
fn entry_count(tables: &[Table]) -> u64
    ensures { result ≡ min (entry_count tables.now) 18446744073709551615 }
{
    let mut sum = 0u64;
    for table in tables {
        sum = sum.saturating_add(table.entries.len() as u64);
    }
    sum
}

fn tables_fault(tables: &[Table]) -> Option<(Which, i64)>
    ensures { result ≡ first_oversize table_oversize tables.now }
{
    for table in tables {
        if let Some(fault) = entries_fault(&table.entries) {
            return Some(fault);
        }
    }
    None
}

fn entries_fault(entries: &TextMap<Value>) -> Option<(Which, i64)>
    ensures { result ≡ first_oversize entry_oversize (finite.entries entries.now) }
{
    for (text, value) in entries.iter() {
        if let Some(fault) = entry_fault(text, value) {
            return Some(fault);
        }
    }
    None
}

fn entry_fault(text: &[u8], value: &Value) -> Option<(Which, i64)>
    ensures { result ≡ entry_oversize (text.now, value.now) }
{
    if let Some(fault) = text_fault(text) {
        return Some(fault);
    }
    value_fault(value)
}

fn value_fault(value: &Value) -> Option<(Which, i64)>
    ensures { result ≡ value_oversize value.now }
{
    match value {
        Value::Num(_) => None,
        Value::Text(text) => text_fault(text.as_slice()),
    }
}

fn text_fault(text: &[u8]) -> Option<(Which, i64)>
    ensures { result ≡ text_oversize text.now }
{
    outside(Which::Text, 0, TEXT_MAX as u64, text.len() as u64)
}

/// The size with this name, where the number is outside its limits; both are within them. The
/// number is cut to 63 bits.
pub fn outside(which: Which, least: u64, most: u64, number: u64) -> Option<(Which, i64)>
    ensures { result ≡ outside which least most number }
{
    if least <= number && number <= most {
        None
    } else {
        Some((which, kept(number)))
    }
}

// The number, cut to 63 bits.
fn kept(number: u64) -> i64
    ensures { result ≡ kept number }
{
    i64::try_from(number).unwrap_or(i64::MAX)
}
