use flow_model::Start;
use std::marker::Model;
use tuple_trace::Items;

/// What is saved of a stream at the end of a part.
///
/// Each accepted request was issued before the end of the part, so `start.turned` is the number of
/// waits in each savepoint that is read.
#[derive(Drop)]
pub struct StreamSave {
    /// Where the run goes on.
    pub start: Start,
    /// How many requests of the file of requests were read and judged.
    pub read: u64,
    /// For each accepted request the row after which it was issued, in their order.
    pub waits: Items<u64>,
    /// How many bytes of the file of the alerts count.
    pub alerts: u64,
    /// How many bytes of the file of the audit count.
    pub audit: u64,
}

impl Model for StreamSave {
    ghost use Rattle.stream_save.specs.StreamText.{StreamSave};

    ghost Value = { StreamSave };

    ghost use Rattle.std.specs.Coded.{codes};
    ghost use Rattle.keyed_state.specs.Counts.{counts_code};

    ghost coded = { Prim.hlevel (codes, counts_code) };

    ghost view = { λ s. record {
      start = s.start;
      read = s.read;
      waits = s.waits;
      alerts = s.alerts;
      audit = s.audit;
    } };
}
