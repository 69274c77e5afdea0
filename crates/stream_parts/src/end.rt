// The last part of a stream.
ghost use Rattle.std.specs.Prelude.{◌≡◌, IfErr, IfOk, None, OnErr, length};
ghost use Rattle.jobs.specs.Job.{job_view};
ghost use Rattle.jobs.specs.Nodes.{IsSourceOf, worker_count};
ghost use Rattle.flow_model.specs.Record.{record_view};
ghost use Rattle.payments.specs.Growing.{with_text};
ghost use Rattle.stream_run.specs.Files.{alerts_text, audit_text};
ghost use Rattle.stream_run.specs.Unwritten.{IsUnwritten};
ghost use Rattle.stream_parts.specs.End.{IsLastRun, StopsAtEnd};

use flow_engine::{Engine, run_from};
use flow_model::RunRecord;
use fries_lines::Fault;
use lane_core::Lanes;
use payments::GrowingShelf;
use std::sync::Wait;
use std::thread::Threads;
use stream_run::{Books, PartTexts, StreamCall, append_part};
use stream_step::{LastPart, Stream};
use tuple_trace::{FeedRows, Gate, NoMemory};

/// Runs the last part of a stream, which has no row: the requests that still wait are issued after
/// the last one. Its audit has the counts at the end. Both texts are appended to their files.
///
/// After an error the files are as before, or have gained first bytes of the part's texts.
pub fn end_stream<R, L: Lanes + Sync, G: Gate + Sync, S: GrowingShelf>(
    call: &StreamCall<'_, R, L, G>,
    stream: Stream,
    books: &Books,
    shelf: &mut S,
) -> Result<RunRecord, Fault>
where
    R: Threads + Wait + Sync,
    requires source { IsSourceOf (job_view stream.setup.job) call.now.source }
    requires closed { (S.state shelf.old).draft ≡ None }
    ensures run { IfOk result (λ ran.
        IsLastRun stream call.now.source ran.setup (record_view ran)) }
    ensures files { IfOk result (λ ran. (S.state shelf.new).files ≡
        with_text (with_text (S.state shelf.old).files call.now.names.alerts
        (alerts_text (record_view ran))) call.now.names.audit
        (audit_text books.now.refused.items (record_view ran))) }
    ensures stopped { OnErr result (StopsAtEnd call.now.names books.now.refused.items
        call.now.source stream (S.state shelf.old).files (S.state shelf.new).files) }
    ensures closed { (S.state shelf.new).draft ≡ None }
    ensures cause { IfErr result (λ why. IsUnwritten call.now.names
        (S.state shelf.old).faults (S.state shelf.new).faults why) }
{
    let engine = call.host.engine(0);
    let ran = run_last(&engine, stream, call.source)?;
    let texts = PartTexts::of_last(call.host.alloc, &ran, books.refused.as_slice())?;
    append_part(&call.names, &texts, shelf)?;
    Ok(ran)
}

// Runs the last part by an engine.
fn run_last<R, L: Lanes + Sync, G: Gate + Sync>(
    engine: &Engine<'_, R, L, G>,
    stream: Stream,
    source: u32,
) -> Result<RunRecord, NoMemory>
where
    R: Threads + Wait + Sync,
    requires source { IsSourceOf (job_view stream.setup.job) source }
    ensures run { IfOk result (λ ran. IsLastRun stream source ran.setup (record_view ran)) }
    ensures journals { IfOk result (λ ran. length ran.journals
        ≡ worker_count ran.setup.job.nodes) }
    ensures states { IfOk result (λ ran. length ran.states ≡ worker_count ran.setup.job.nodes) }
{
    let fed = stream.start.row;
    let LastPart { setup, start } = stream.last_part(engine.alloc)?;
    let rows = FeedRows::behind(&[], fed as usize, source);
    rows.are_numbered();
    let flown = run_from(engine, setup, &rows, start)?;
    flown.record(engine.alloc)
}
