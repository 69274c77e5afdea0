use keyed_state::TextMap;
use tuple_trace::{Items, Txt, Value};

/// A table of a job, by which an enrich looks values up. Requests name it.
#[derive(Drop)]
pub struct Table {
    pub name: Txt,
    pub entries: TextMap<Value>,
}

/// The tables of a job, numbered from 0 in the order of their names by bytes.
pub type Tables = Items<Table>;
