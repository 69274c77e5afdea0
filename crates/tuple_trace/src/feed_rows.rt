ghost use Rattle.std.specs.Prelude.{◌≡◌, ◌<◌, ◌+◌, ◌^◌, ◌++◌, IfSome, Some, length, slice_get};
ghost use Rattle.tuple_trace.specs.FeedRows.{AreRowsAfter, blanks};
ghost use Rattle.tuple_trace.specs.Rows.{AreRows, IsRow};

use crate::{Row, Rows};
use std::marker::Model;

/// The rows that a run feeds from a beginning on, with a blank row in place of each that was fed
/// before. No blank row takes memory.
///
/// Contracts see one list of all rows. As in [`Rows`], the rows are numbered from 1, and none has
/// visited a node.
#[derive(Drop)]
pub struct FeedRows<'a> {
    rows: &'a [Row],
    skipped: usize,
    source: u32,
}

impl<'a> Model for FeedRows<'a> {
    ghost use Rattle.std.specs.Prelude.{◌<◌, ◌+◌, ◌^◌, ◌++◌, List, length};
    ghost use Rattle.tuple_trace.specs.FeedRows.{blanks};
    ghost use Rattle.tuple_trace.specs.Rows.{AreRows};
    ghost use Rattle.tuple_trace.specs.declared.row.Row.{Row};

    ghost Value = { List Row };

    ghost view = { λ a. blanks a.source a.skipped ++ a.rows.now };

    ghost invariant = { λ a. AreRows (blanks a.source a.skipped ++ a.rows.now)
        × (a.skipped + length a.rows.now < 2 ^ 64) };
}

impl<'a> FeedRows<'a> {
    /// All rows, none of which was fed before.
    pub fn all(rows: &'a Rows) -> Self
        ensures { result ≡ rows.now }
    {
        FeedRows {
            rows: rows.as_slice(),
            skipped: 0,
            source: 0,
        }
    }

    /// These rows, after `skipped` blank ones that enter by the source node with this number.
    pub fn behind(rows: &'a [Row], skipped: usize, source: u32) -> Self
        requires numbered { AreRowsAfter skipped rows.now }
        requires few { skipped + length rows.now < 2 ^ 64 }
        ensures { result ≡ blanks source skipped ++ rows.now }
    {
        FeedRows {
            rows,
            skipped,
            source,
        }
    }

    /// How many rows there are, the blank ones included.
    pub fn len(&self) -> usize
        ensures { result ≡ length self.now }
    {
        self.skipped + self.rows.len()
    }

    /// The rows are numbered by their places. Does nothing.
    pub fn are_numbered(&self)
        ensures { AreRows self.now }
    {
        let _kept = self.rows;
    }

    /// The row at this place, counted from 0. `None` for a blank row, and behind the last row.
    pub fn kept(&self, place: usize) -> Option<&'a Row>
        ensures there { IfSome result (λ row. slice_get self.now place ≡ Some row.now) }
        ensures row { IfSome result (λ row. IsRow (place + 1) row.now) }
    {
        if place < self.skipped {
            return None;
        }
        self.rows.get(place - self.skipped)
    }
}
