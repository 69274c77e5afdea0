// The lines of the plans of requests.
ghost use Rattle.std.specs.Prelude.{◌≡◌, ◌<◌, ◌≤◌, ◌++◌, IfOk, OnErr, OnOk, decimal};
ghost use Rattle.std.specs.Prelude.{length, slice_get};
ghost use Rattle.flow_dag.specs.Masks.{has};
ghost use Rattle.jobs.specs.Job.{job_view};
ghost use Rattle.fries_lines.specs.Lines.{edge_name as edge_name_of, edge_names as edge_names_of};
ghost use Rattle.fries_lines.specs.Lines.{is_part as is_part_of, listed as listed_of};
ghost use Rattle.fries_lines.specs.Lines.{node_names as node_names_of, part_count as part_count_of};
ghost use Rattle.fries_lines.specs.Lines.{plan_line, plan_lines};
ghost use Rattle.savepoint.specs.SaveText.{name_of};

use cover_planner::Plan;
use flow_dag::{Edge, MAX_EDGES, MAX_NODES, has_bit, has_wide_bit};
use jobs::{Job, NodeDef};
use std::alloc::Global;
use tuple_trace::{Bytes, Items, NoMemory};

/// Texts in a row.
type Texts = Items<Bytes>;

/// Appends the lines of the plans of a job's requests, which are counted from 1. After [`NoMemory`]
/// the text is as before.
pub fn push_plans(
    alloc: Global,
    job: &Job,
    plans: &[Plan],
    text: &mut Bytes,
) -> Result<(), NoMemory>
    ensures ok { OnOk result (text.new ≡ text.old ++ plan_lines (job_view job.now) plans.now) }
    ensures err { OnErr result (text.new ≡ text.old) }
{
    let lines = lines_of(alloc, job, plans)?;
    text.extend_from_slice(lines.as_slice())
}

fn lines_of(alloc: Global, job: &Job, plans: &[Plan]) -> Result<Bytes, NoMemory>
    ensures { IfOk result (λ lines. lines ≡ plan_lines (job_view job.now) plans.now) }
{
    let mut lines = Bytes::new(alloc);
    for (place, plan) in plans.iter().enumerate() {
        push_plan(alloc, job, place as u64 + 1, plan, &mut lines)?;
    }
    Ok(lines)
}

fn push_plan(
    alloc: Global,
    job: &Job,
    request: u64,
    plan: &Plan,
    text: &mut Bytes,
) -> Result<(), NoMemory>
    ensures { OnOk result (text.new ≡ text.old ++ plan_line (job_view job.now) request plan.now) }
{
    let (nodes, edges) = (job.nodes.as_slice(), job.dag.all_edges());
    let parts = part_count(&plan.part);
    push_number(alloc, b"request ", request, text)?;
    push_nodes(alloc, b" asked ", nodes, plan.asked, text)?;
    push_nodes(alloc, b" members ", nodes, plan.members, text)?;
    push_nodes(alloc, b" heads ", nodes, plan.heads, text)?;
    push_number(alloc, b" parts ", parts as u64, text)?;
    push_edges(alloc, b" edges ", nodes, edges, plan.edges, text)?;
    text.extend_from_slice(b"\n")?;
    Ok(())
}

fn push_number(alloc: Global, label: &[u8], number: u64, text: &mut Bytes) -> Result<(), NoMemory>
    ensures { OnOk result (text.new ≡ text.old ++ label.now ++ decimal number) }
{
    push(text, label, format!(in alloc; "{number}")?.as_bytes())
}

fn push_nodes(
    alloc: Global,
    label: &[u8],
    nodes: &[NodeDef],
    mask: u64,
    text: &mut Bytes,
) -> Result<(), NoMemory>
    requires { length nodes.now ≤ MAX_NODES }
    ensures { OnOk result (text.new ≡ text.old ++ label.now
        ++ listed_of (node_names_of nodes.now mask)) }
{
    let list = node_list(alloc, nodes, mask)?;
    push(text, label, list.as_slice())
}

fn push_edges(
    alloc: Global,
    label: &[u8],
    nodes: &[NodeDef],
    edges: &[Edge],
    mask: u128,
    text: &mut Bytes,
) -> Result<(), NoMemory>
    requires { length edges.now ≤ MAX_EDGES }
    ensures { OnOk result (text.new ≡ text.old ++ label.now
        ++ listed_of (edge_names_of nodes.now edges.now mask)) }
{
    let list = edge_list(alloc, nodes, edges, mask)?;
    push(text, label, list.as_slice())
}

fn push(text: &mut Bytes, label: &[u8], words: &[u8]) -> Result<(), NoMemory>
    ensures { OnOk result (text.new ≡ text.old ++ label.now ++ words.now) }
{
    text.extend_from_slice(label)?;
    text.extend_from_slice(words)
}

fn node_list(alloc: Global, nodes: &[NodeDef], mask: u64) -> Result<Bytes, NoMemory>
    requires { length nodes.now ≤ MAX_NODES }
    ensures { IfOk result (λ list. list ≡ listed_of (node_names_of nodes.now mask)) }
{
    let names = node_names(alloc, nodes, mask)?;
    listed(alloc, names.as_slice())
}

fn edge_list(
    alloc: Global,
    nodes: &[NodeDef],
    edges: &[Edge],
    mask: u128,
) -> Result<Bytes, NoMemory>
    requires { length edges.now ≤ MAX_EDGES }
    ensures { IfOk result (λ list. list ≡ listed_of (edge_names_of nodes.now edges.now mask)) }
{
    let names = edge_names(alloc, nodes, edges, mask)?;
    listed(alloc, names.as_slice())
}

// The texts with commas between them, and a dash where there are none.
#[tactic(auto, using(crate::proofs::ListLemmas::join_two))]
fn listed(alloc: Global, texts: &[Bytes]) -> Result<Bytes, NoMemory>
    ensures { IfOk result (λ list. list ≡ listed_of texts.now) }
{
    let Some((first, later)) = texts.split_first() else {
        return Bytes::from_slice(alloc, b"-");
    };
    let mut list = Bytes::from_slice(alloc, first.as_slice())?;
    for text in later {
        push(&mut list, b",", text.as_slice())?;
    }
    Ok(list)
}

fn node_names(alloc: Global, nodes: &[NodeDef], mask: u64) -> Result<Texts, NoMemory>
    requires { length nodes.now ≤ MAX_NODES }
    ensures { IfOk result (λ names. names ≡ node_names_of nodes.now mask) }
{
    let mut names = Texts::new(alloc);
    for (number, node) in nodes.iter().enumerate() {
        if has_node(mask, number as u32) {
            names.push(Bytes::from_slice(alloc, node.name.as_slice())?)?;
        }
    }
    Ok(names)
}

fn edge_names(
    alloc: Global,
    nodes: &[NodeDef],
    edges: &[Edge],
    mask: u128,
) -> Result<Texts, NoMemory>
    requires { length edges.now ≤ MAX_EDGES }
    ensures { IfOk result (λ names. names ≡ edge_names_of nodes.now edges.now mask) }
{
    let mut names = Texts::new(alloc);
    for (number, edge) in edges.iter().enumerate() {
        if has_edge(mask, number as u32) {
            names.push(edge_name(alloc, nodes, edge)?)?;
        }
    }
    Ok(names)
}

fn has_node(mask: u64, number: u32) -> bool
    requires { number < MAX_NODES }
    ensures { result ≡ has mask number }
{
    has_bit(mask, number)
}

fn has_edge(mask: u128, number: u32) -> bool
    requires { number < MAX_EDGES }
    ensures { result ≡ has mask number }
{
    has_wide_bit(mask, number)
}

#[tactic(auto, unfolding(crate::specs::Lines::edge_name))]
fn edge_name(alloc: Global, nodes: &[NodeDef], edge: &Edge) -> Result<Bytes, NoMemory>
    ensures { IfOk result (λ name. name ≡ edge_name_of nodes.now edge.now) }
{
    let mut name = Bytes::from_slice(alloc, name_at(nodes, edge.from))?;
    push(&mut name, b"-", name_at(nodes, edge.to))?;
    Ok(name)
}

fn name_at(nodes: &[NodeDef], number: u32) -> &[u8]
    ensures { result.now ≡ name_of (slice_get nodes.now number) }
{
    match nodes.get(number as usize) {
        Some(node) => node.name.as_slice(),
        None => &[],
    }
}

fn part_count(parts: &[u8]) -> usize
    ensures { result ≡ part_count_of parts.now }
{
    (0..parts.len())
        .filter(|number| is_part(parts, *number))
        .count()
}

fn is_part(parts: &[u8], number: usize) -> bool
    ensures { result ≡ is_part_of parts.now number }
{
    parts.iter().any(|part| *part as usize == number)
}
