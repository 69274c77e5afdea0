// A part of a stream: it is run, written and told.
ghost use Rattle.std.specs.Prelude.{◌≡◌, ◌+◌, ◌<◌, ◌^◌, IfErr, IfOk, None, OnErr, OnOk, length};
ghost use Rattle.jobs.specs.Job.{job_view};
ghost use Rattle.jobs.specs.Nodes.{AreFromSources, IsSourceOf};
ghost use Rattle.tuple_trace.specs.FeedRows.{AreRowsAfter};
ghost use Rattle.flow_model.specs.Record.{record_view};
ghost use Rattle.fries_lines.specs.Lines.{alert_count as alert_count_of};
ghost use Rattle.stream_run.specs.Files.{alerts_text, audit_text};
ghost use Rattle.stream_run.specs.Growing.{Goes, GoesAndStops, IsBooked, IsOnePart, without_counts};
ghost use Rattle.stream_run.specs.Parts.{IssuesUpTo, KeepsAsked};
ghost use Rattle.stream_run.specs.Standing.{Stands};
ghost use Rattle.stream_run.specs.Unwritten.{IsUnwritten};

use crate::books::{Books, Tally};
use crate::call::StreamCall;
use crate::files::append_part;
use crate::part::{PartRan, run_part};
use crate::texts::PartTexts;
use crate::watch::Watch;
use fries_lines::{Fault, alert_count};
use lane_core::Lanes;
use payments::GrowingShelf;
use std::alloc::Global;
use std::mem;
use std::sync::Wait;
use std::thread::Threads;
use stream_step::{Stream, parts_go_on};
use tuple_trace::{Gate, NoMemory, Row};

/// Runs the next rows of a stream as one part, and appends its texts to both files. Then the watch
/// is told.
///
/// After an error the files are as before, or have gained first bytes of the part's texts.
pub fn run_rows<R, L: Lanes + Sync, G: Gate + Sync, S: GrowingShelf, W: Watch>(
    call: &StreamCall<'_, R, L, G>,
    stream: Stream,
    books: &mut Books,
    rows: &[Row],
    shelf: &mut S,
    watch: &mut W,
) -> Result<Stream, Fault>
where
    R: Threads + Wait + Sync,
    requires numbered { AreRowsAfter stream.start.row rows.now }
    requires few { stream.start.row + length rows.now < 2 ^ 63 }
    requires sources { AreFromSources (job_view stream.setup.job) rows.now }
    requires source { IsSourceOf (job_view stream.setup.job) call.now.source }
    requires closed { (S.state shelf.old).draft ≡ None }
    requires stands { Stands call.now.behind call.now.names stream (S.state shelf.old).files }
    ensures goes { IfOk result (λ next. (goes : Goes call.now.names rows.now stream
        (S.state shelf.old).files next (S.state shelf.new).files)
        × IsOnePart goes.written × IsBooked goes.written books.old books.new) }
    ensures row { IfOk result (λ next.
        next.start.row ≡ stream.start.row + length rows.now) }
    ensures issued { IfOk result (λ next.
        IssuesUpTo stream (stream.start.row + length rows.now) next) }
    ensures kept { IfOk result (λ next. KeepsAsked stream next) }
    ensures stopped { OnErr result (GoesAndStops call.now.names stream
        (S.state shelf.old).files (S.state shelf.new).files) }
    ensures closed { (S.state shelf.new).draft ≡ None }
    ensures read { books.new.read ≡ books.old.read }
    ensures faults { OnOk result ((S.state shelf.new).faults ≡ (S.state shelf.old).faults) }
    ensures cause { IfErr result (λ why. IsUnwritten call.now.names
        (S.state shelf.old).faults (S.state shelf.new).faults why) }
{
    parts_go_on();
    let engine = call.host.engine(rows.len());
    let part = run_part(&engine, stream, rows, call.source)?;
    let made = texts_of(call.host.alloc, &part, books, rows.len())?;
    let stream = part.go_on();
    append_part(&call.names, &made.texts, shelf)?;
    books.tally = made.tally;
    books.refused.clear();
    watch.part_ended(&*shelf, &call.end(&stream, books));
    Ok(stream)
}

// What is written of a part, and the counts after it.
#[derive(Drop)]
struct Made {
    texts: PartTexts,
    tally: Tally,
}

fn texts_of(alloc: Global, part: &PartRan, books: &Books, rows: usize) -> Result<Made, NoMemory>
    ensures alerts { IfOk result (λ made.
        made.texts.alerts ≡ alerts_text (record_view part.now.ran)) }
    ensures audit { IfOk result (λ made. made.texts.audit
        ≡ audit_text books.now.refused.items (without_counts (record_view part.now.ran))) }
    ensures more { IfOk result (λ made. made.tally.alerts
        ≡ books.now.tally.alerts + length made.texts.alerts) }
    ensures longer { IfOk result (λ made. made.tally.audit
        ≡ books.now.tally.audit + length made.texts.audit) }
    ensures unsaved { IfOk result (λ made. made.tally.unsaved
        ≡ books.now.tally.unsaved + rows) }
    ensures shown { IfOk result (λ made. made.tally.shown
        ≡ books.now.tally.shown + alert_count_of part.now.ran.setup.job.nodes
        part.now.ran.journals) }
{
    let ran = &part.ran;
    let texts = PartTexts::of_part(alloc, ran, books.refused.as_slice())?;
    let shown = alert_count(&ran.setup.job, ran.journals.as_slice())?;
    let tally = books.tally.after(&texts, rows, shown)?;
    Ok(Made { texts, tally })
}
