ghost use Rattle.std.specs.Prelude.{◌≡◌, ◌≤◌, ◌+◌, ◌-◌, ◌<◌, ◌^◌, [], All, IfErr, IfOk, IfSome};
ghost use Rattle.std.specs.Prelude.{None, OnErr};
ghost use Rattle.std.specs.Prelude.{OnOk, drop, length};
ghost use Rattle.jobs.specs.Job.{job_view};
ghost use Rattle.jobs.specs.Nodes.{AreFromSources, IsSourceOf};
ghost use Rattle.tuple_trace.specs.FeedRows.{AreRowsAfter};
ghost use Rattle.versions.specs.declared.request.Request.{Request};
ghost use Rattle.stream_parts.specs.InTime.{IssuesFirst, NoneAsksBefore};
ghost use Rattle.stream_step.specs.Pending.{first_wait};
ghost use Rattle.stream_run.specs.Growing.{Goes, GoesAndStops, IsBooked};
ghost use Rattle.stream_run.specs.Parts.{KeepsAsked};
ghost use Rattle.stream_run.specs.Standing.{Stands};
ghost use Rattle.stream_run.specs.Unwritten.{IsUnwritten};

use fries_lines::Fault;
use lane_core::Lanes;
use payments::GrowingShelf;
use std::sync::Wait;
use std::thread::Threads;
use stream_rows::most_rows;
use stream_run::{Books, StreamCall, Watch, run_rows};
use stream_step::Stream;
use tuple_trace::{Gate, Row};
use versions::accepted_requests_are_in_order;

/// Runs the next rows of a stream, each part up to the most rows that one may have. Each part is
/// written, and told to the watch, before the next is run.
///
/// In an exact stream, a part ends at each row that a pending request asks for. Then the request is
/// issued in a part without a row, before the later rows.
///
/// Of the pending requests just the first are issued, each after the last row that was fed before,
/// or after the later row that it asks for (`issued`). If there are rows, none stays pending that
/// asks for a row before the last one (`in_time`).
///
/// After an error the files have the texts of some parts, and maybe first bytes of those of one
/// more.
pub fn run_all<R, L: Lanes + Sync, G: Gate + Sync, S: GrowingShelf, W: Watch>(
    call: &StreamCall<'_, R, L, G>,
    stream: Stream,
    books: &mut Books,
    rows: &[Row],
    shelf: &mut S,
    watch: &mut W,
) -> Result<Stream, Fault>
where
    R: Threads + Wait + Sync,
    requires numbered { AreRowsAfter stream.start.row rows.now }
    requires few { stream.start.row + length rows.now < 2 ^ 63 }
    requires sources { AreFromSources (job_view stream.setup.job) rows.now }
    requires source { IsSourceOf (job_view stream.setup.job) call.now.source }
    requires closed { (S.state shelf.old).draft ≡ None }
    requires stands { Stands call.now.behind call.now.names stream (S.state shelf.old).files }
    ensures goes { IfOk result (λ next. (goes : Goes call.now.names rows.now stream
        (S.state shelf.old).files next (S.state shelf.new).files)
        × IsBooked goes.written books.old books.new) }
    ensures row { IfOk result (λ next.
        next.start.row ≡ stream.start.row + length rows.now) }
    ensures kept { IfOk result (λ next. KeepsAsked stream next) }
    ensures issued { IfOk result (λ next.
        IssuesFirst stream (stream.start.row + length rows.now) next) }
    ensures in_time { IfOk result (λ next. 0 < length rows.now
        → NoneAsksBefore (stream.start.row + length rows.now) next) }
    ensures stopped { OnErr result (GoesAndStops call.now.names stream
        (S.state shelf.old).files (S.state shelf.new).files) }
    ensures closed { (S.state shelf.new).draft ≡ None }
    ensures read { books.new.read ≡ books.old.read }
    ensures faults { OnOk result ((S.state shelf.new).faults ≡ (S.state shelf.old).faults) }
    ensures cause { IfErr result (λ why. IsUnwritten call.now.names
        (S.state shelf.old).faults (S.state shelf.new).faults why) }
{
    accepted_requests_are_in_order();
    let most = most_rows(&stream.setup.job);
    let mut stream = stream;
    let mut left = rows;
    while !left.is_empty() {
        stream = issue_due(call, stream, books, shelf, watch)?;
        let count = rows_of_part(&stream, most.min(left.len()));
        stream = run_rows(call, stream, books, &left[..count], shelf, watch)?;
        left = &left[count..];
    }
    Ok(stream)
}

// Issues the requests of an exact stream that ask for no later row than the last one, in a part
// without a row. A stream that isn't exact, or has no such request, stays as it is.
fn issue_due<R, L: Lanes + Sync, G: Gate + Sync, S: GrowingShelf, W: Watch>(
    call: &StreamCall<'_, R, L, G>,
    stream: Stream,
    books: &mut Books,
    shelf: &mut S,
    watch: &mut W,
) -> Result<Stream, Fault>
where
    R: Threads + Wait + Sync,
    requires few { stream.start.row < 2 ^ 63 }
    requires source { IsSourceOf (job_view stream.setup.job) call.now.source }
    requires closed { (S.state shelf.old).draft ≡ None }
    requires stands { Stands call.now.behind call.now.names stream (S.state shelf.old).files }
    ensures goes { IfOk result (λ next. (goes : Goes call.now.names [] stream
        (S.state shelf.old).files next (S.state shelf.new).files)
        × IsBooked goes.written books.old books.new) }
    ensures row { IfOk result (λ next. next.start.row ≡ stream.start.row) }
    ensures kept { IfOk result (λ next. KeepsAsked stream next) }
    ensures issued { IfOk result (λ next. IssuesFirst stream stream.start.row next) }
    ensures none_due { IfOk result (λ next. IfSome stream.exact (λ base.
        All (λ (request : Request). stream.start.row < request.after) next.pending)) }
    ensures stopped { OnErr result (GoesAndStops call.now.names stream
        (S.state shelf.old).files (S.state shelf.new).files) }
    ensures closed { (S.state shelf.new).draft ≡ None }
    ensures read { books.new.read ≡ books.old.read }
    ensures faults { OnOk result ((S.state shelf.new).faults ≡ (S.state shelf.old).faults) }
    ensures cause { IfErr result (λ why. IsUnwritten call.now.names
        (S.state shelf.old).faults (S.state shelf.new).faults why) }
{
    accepted_requests_are_in_order();
    if stream.has_due() {
        run_rows(call, stream, books, &[], shelf, watch)
    } else {
        Ok(stream)
    }
}

// How many of the next rows the next part has, of this many.
fn rows_of_part(stream: &Stream, most: usize) -> usize
    requires few { stream.now.start.row + most < 2 ^ 63 }
    requires some { 0 < most }
    ensures exact { IfSome stream.now.exact (λ base. stream.now.start.row + result
        ≡ first_wait stream.now.start.row (stream.now.start.row + most) stream.now.pending) }
    ensures some { 0 < result }
    ensures within { result ≤ most }
{
    let fed = stream.start.row;
    (stream.part_end(fed + most as u64) - fed) as usize
}

/// The rows that come after row `last`, of rows that are numbered on after `fed`. The others were
/// run before a savepoint. Takes no memory.
pub fn rows_after(rows: &[Row], fed: u64, last: u64) -> &[Row]
    requires numbered { AreRowsAfter fed rows.now }
    requires before { fed ≤ last }
    ensures are { result.now ≡ drop (last - fed) rows.now }
    ensures numbered { AreRowsAfter last result.now }
{
    let run = last - fed;
    if run >= rows.len() as u64 {
        return &[];
    }
    &rows[run as usize..]
}
