ghost use Rattle.std.specs.Prelude.{◌≡◌};
ghost use Rattle.std.specs.List.{list_all};
ghost use Rattle.job_file.specs.Names.{column_named, column_place, is_name, is_name_byte};
ghost use Rattle.job_file.specs.Names.{node_named, node_place, place_number, table_named};
ghost use Rattle.job_file.specs.Names.{table_place};

use jobs::{Column, NOWHERE, NodeDef, Table};

/// How many bytes a name has at most.
const NAME_MAX: usize = 32;

/// How many columns or nodes are searched for a name. A job with more of them is refused for its
/// size.
const SEARCHED_MAX: usize = 64;

/// Whether a text is a name of a column, a node or a table.
pub(crate) fn is_name(text: &[u8]) -> bool
    ensures { result ≡ is_name text.now }
{
    !text.is_empty() && text.len() <= NAME_MAX && are_name_bytes(text)
}

fn are_name_bytes(text: &[u8]) -> bool
    ensures { result ≡ list_all is_name_byte text.now }
{
    text.iter().all(|byte| is_name_byte(*byte))
}

fn is_name_byte(byte: u8) -> bool
    ensures { result ≡ is_name_byte byte }
{
    byte.is_ascii_lowercase() || byte.is_ascii_digit() || byte == b'_'
}

/// The number of the column with this name, or [`NOWHERE`].
pub(crate) fn column_named(columns: &[Column], name: &[u8]) -> u32
    ensures { result ≡ column_named columns.now name.now }
{
    number_of(column_place(columns, name))
}

fn column_place(columns: &[Column], name: &[u8]) -> Option<usize>
    ensures { result ≡ column_place columns.now name.now }
{
    columns
        .iter()
        .take(SEARCHED_MAX)
        .position(|column| column.name.as_slice() == name)
}

/// The number of the node with this name, or [`NOWHERE`].
pub(crate) fn node_named(nodes: &[NodeDef], name: &[u8]) -> u32
    ensures { result ≡ node_named nodes.now name.now }
{
    number_of(node_place(nodes, name))
}

fn node_place(nodes: &[NodeDef], name: &[u8]) -> Option<usize>
    ensures { result ≡ node_place nodes.now name.now }
{
    nodes
        .iter()
        .take(SEARCHED_MAX)
        .position(|node| node.name.as_slice() == name)
}

/// The number of the table with this name, or [`NOWHERE`].
pub(crate) fn table_named(tables: &[Table], name: &[u8]) -> u32
    ensures { result ≡ table_named tables.now name.now }
{
    number_of(table_place(tables, name))
}

fn table_place(tables: &[Table], name: &[u8]) -> Option<usize>
    ensures { result ≡ table_place tables.now name.now }
{
    tables
        .iter()
        .position(|table| table.name.as_slice() == name)
}

fn number_of(place: Option<usize>) -> u32
    ensures { result ≡ place_number place }
{
    match place {
        Some(place) => u32::try_from(place).unwrap_or(NOWHERE),
        None => NOWHERE,
    }
}
