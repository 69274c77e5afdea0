// Names that are taken.
ghost use Rattle.std.specs.Prelude.{◌≡◌, ◌≤◌, length};
ghost use Rattle.jobs.specs.Names.{has_column_named, has_node_named, is_new_column, is_new_node};
ghost use Rattle.jobs.specs.Names.{leaves_named, named_out_count};
ghost use Rattle.jobs.specs.Places.{FindsFailure};

use crate::{Column, MAX_COLUMNS, NodeDef};
use flow_dag::{Edge, MAX_EDGES, MAX_NODES};

/// The first column that has the name of an earlier one.
pub fn repeated_column(columns: &[Column]) -> Option<u32>
    requires { length columns.now ≤ MAX_COLUMNS }
    ensures { FindsFailure (is_new_column columns.now) columns.now result }
{
    for i in 0..columns.len() {
        if has_column_named(&columns[..i], columns[i].name.as_slice()) {
            return Some(i as u32);
        }
    }
    None
}

fn has_column_named(columns: &[Column], name: &[u8]) -> bool
    ensures { result ≡ has_column_named columns.now name.now }
{
    columns.iter().any(|column| column.name.as_slice() == name)
}

/// The first node that has the name of an earlier one.
pub fn repeated_node(nodes: &[NodeDef]) -> Option<u32>
    requires { length nodes.now ≤ MAX_NODES }
    ensures { FindsFailure (is_new_node nodes.now) nodes.now result }
{
    for i in 0..nodes.len() {
        if has_node_named(&nodes[..i], nodes[i].name.as_slice()) {
            return Some(i as u32);
        }
    }
    None
}

fn has_node_named(nodes: &[NodeDef], name: &[u8]) -> bool
    ensures { result ≡ has_node_named nodes.now name.now }
{
    nodes.iter().any(|node| node.name.as_slice() == name)
}

/// How many edges leave nodes of this name.
pub fn named_out_count(nodes: &[NodeDef], edges: &[Edge], name: &[u8]) -> u32
    requires { length edges.now ≤ MAX_EDGES }
    ensures { result ≡ named_out_count nodes.now edges.now name.now }
{
    let mut count = 0u32;
    for edge in edges {
        if leaves_named(nodes, name, *edge) {
            count += 1;
        }
    }
    count
}

fn leaves_named(nodes: &[NodeDef], name: &[u8], edge: Edge) -> bool
    ensures { result ≡ leaves_named nodes.now name.now edge }
{
    match nodes.get(edge.from as usize) {
        Some(node) => node.name.as_slice() == name,
        None => false,
    }
}
