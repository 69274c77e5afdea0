ghost use Rattle.std.specs.Prelude.{◌≡◌, ◌++◌, [], OnOk, map};
ghost use Rattle.sink_journal.specs.Alerts.{layout, sink_alerts};
ghost use Rattle.sink_journal.specs.Audit.{entry_fields, feed_fields};
ghost use Rattle.text_threads.specs.inner.Pieces.{piece_records, pieces_records};

use crate::piece::Piece;
use jobs::Column;
use sink_journal::{Entry, Feed};
use std::alloc::Global;
use std::marker::Model;
use tuple_trace::NoMemory;

// How many steps a piece has at most.
const STEPS: usize = 4096;

/// Pieces of a text, in order. Contracts see their records.
#[derive(Drop)]
pub(crate) struct Pieces<'a> {
    list: Vec<Piece<'a>>,
}

impl<'a> Model for Pieces<'a> {
    ghost use Rattle.std.specs.Prelude.{List, ℕ};
    ghost use Rattle.text_threads.specs.inner.Pieces.{pieces_records};

    ghost Value = { List (List (List ℕ)) };

    ghost view = { λ a. pieces_records a.list.items };
}

impl<'a> Pieces<'a> {
    /// No pieces.
    pub(crate) fn new(alloc: Global) -> Self
        ensures { result ≡ [] }
    {
        Pieces {
            list: Vec::new(alloc),
        }
    }

    /// All pieces in order.
    pub(crate) fn as_slice(&self) -> &[Piece<'a>]
        ensures { pieces_records result.now ≡ self.now }
    {
        self.list.as_slice()
    }

    /// Appends a piece.
    pub(crate) fn push(&mut self, piece: Piece<'a>) -> Result<(), NoMemory>
        ensures { OnOk result (self.new ≡ self.old ++ piece_records piece.entry) }
    {
        Ok(self.list.push(piece)?)
    }

    /// Appends what a sink shows for these steps of one of its workers.
    pub(crate) fn push_shown(
        &mut self,
        columns: &'a [Column],
        name: &'a [u8],
        listed: &'a [u32],
        steps: &'a [Entry],
    ) -> Result<(), NoMemory>
        ensures { OnOk result (self.new ≡
            self.old ++ sink_alerts name.now (layout columns.now listed.now) steps.now) }
    {
        for part in steps.chunks(STEPS) {
            self.push(Piece::Shown {
                columns,
                name,
                listed,
                steps: part,
            })?;
        }
        Ok(())
    }

    /// Appends these steps of the feeder.
    pub(crate) fn push_feeds(&mut self, feeds: &'a [Feed]) -> Result<(), NoMemory>
        ensures { OnOk result (self.new ≡ self.old ++ map feed_fields feeds.now) }
    {
        for part in feeds.chunks(STEPS) {
            self.push(Piece::Fed(part))?;
        }
        Ok(())
    }

    /// Appends these steps of the worker at this place of the node with this name.
    pub(crate) fn push_steps(
        &mut self,
        node: &'a [u8],
        place: usize,
        steps: &'a [Entry],
    ) -> Result<(), NoMemory>
        ensures { OnOk result (self.new ≡
            self.old ++ map (entry_fields node.now place) steps.now) }
    {
        for part in steps.chunks(STEPS) {
            self.push(Piece::Steps {
                node,
                place,
                steps: part,
            })?;
        }
        Ok(())
    }
}
