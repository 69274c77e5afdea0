use tuple_trace::{Fields, Items};

/// What came to a sink: the sink's node, the number of the row, and the fields of the tuple.
#[derive(Debug, Drop)]
pub struct Landing {
    pub sink: u32,
    pub row: u64,
    pub fields: Fields,
}

/// What came to the sinks, in order.
pub type Landings = Items<Landing>;
