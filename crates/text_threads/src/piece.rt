ghost use Rattle.std.specs.Prelude.{◌≡◌, ◌++◌, IfOk, OnOk, map};
ghost use Rattle.std.specs.FinMap.{entries};
ghost use Rattle.sink_journal.specs.Audit.{entry_fields, feed_fields, refused_fields, state_fields};
ghost use Rattle.sink_journal.specs.Records.{records_text};
ghost use Rattle.text_threads.specs.inner.Pieces.{piece_records, pieces_records};

use crate::text::Text;
use jobs::{Column, Job};
use keyed_state::Keyed;
use sink_journal::{
    AuditLines, Entry, Feed, Noted, alerts_header_text, audit_header_text, sink_text,
};
use std::alloc::Global;
use tuple_trace::{Bytes, NoMemory};

/// Some records of a text, which follow one another there.
#[derive(Clone, Copy)]
pub(crate) enum Piece<'a> {
    /// The header of the alerts of this job.
    AlertsHeader(&'a Job),
    /// What the sink with this name shows for these steps of one of its workers, by the columns of
    /// the job and the numbers of those that it lists.
    Shown {
        columns: &'a [Column],
        name: &'a [u8],
        listed: &'a [u32],
        steps: &'a [Entry],
    },
    /// The header of an audit.
    AuditHeader,
    Refused(&'a [Noted]),
    Fed(&'a [Feed]),
    /// Steps of the worker at this place of the node with this name.
    Steps {
        node: &'a [u8],
        place: usize,
        steps: &'a [Entry],
    },
    /// The counts of that worker.
    Counts {
        node: &'a [u8],
        place: usize,
        state: &'a Keyed,
    },
}

/// The text of the records of these pieces, a part for each.
pub(crate) fn text_of(alloc: Global, pieces: &[Piece<'_>]) -> Result<Text, NoMemory>
    ensures { IfOk result (λ text. text ≡ records_text (pieces_records pieces.now)) }
{
    let mut text = Text::new(alloc);
    for piece in pieces {
        text.push(piece_text(alloc, *piece)?)?;
    }
    Ok(text)
}

fn piece_text(alloc: Global, piece: Piece<'_>) -> Result<Bytes, NoMemory>
    ensures { IfOk result (λ text. text ≡ records_text (piece_records piece.entry)) }
{
    match piece {
        Piece::AlertsHeader(job) => alerts_header_text(alloc, job),
        Piece::Shown {
            columns,
            name,
            listed,
            steps,
        } => sink_text(alloc, columns, name, listed, steps),
        Piece::AuditHeader => audit_header_text(alloc),
        Piece::Refused(refused) => refused_text(alloc, refused),
        Piece::Fed(feeds) => feeds_text(alloc, feeds),
        Piece::Steps { node, place, steps } => steps_text(alloc, node, place, steps),
        Piece::Counts { node, place, state } => counts_text(alloc, node, place, state),
    }
}

fn refused_text(alloc: Global, refused: &[Noted]) -> Result<Bytes, NoMemory>
    ensures { IfOk result (λ text. text ≡ records_text (map refused_fields refused.now)) }
{
    let mut part = AuditLines::new(alloc, refused.len());
    part.write_refused(refused)?;
    Ok(part.into_text())
}

fn feeds_text(alloc: Global, feeds: &[Feed]) -> Result<Bytes, NoMemory>
    ensures { IfOk result (λ text. text ≡ records_text (map feed_fields feeds.now)) }
{
    let mut part = AuditLines::new(alloc, feeds.len());
    part.write_feeds(feeds)?;
    Ok(part.into_text())
}

fn steps_text(alloc: Global, node: &[u8], place: usize, steps: &[Entry]) -> Result<Bytes, NoMemory>
    ensures { IfOk result (λ text. text ≡
        records_text (map (entry_fields node.now place) steps.now)) }
{
    let mut part = AuditLines::new(alloc, steps.len());
    part.write_steps(node, place, steps)?;
    Ok(part.into_text())
}

fn counts_text(alloc: Global, node: &[u8], place: usize, state: &Keyed) -> Result<Bytes, NoMemory>
    ensures { IfOk result (λ text. text ≡
        records_text (map (state_fields node.now place) (entries state.now))) }
{
    let mut part = AuditLines::new(alloc, 0);
    part.write_counts(node, place, state)?;
    Ok(part.into_text())
}
