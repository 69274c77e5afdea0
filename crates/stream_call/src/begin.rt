// A stream that begins anew.
ghost use Rattle.std.specs.Prelude.{◌≡◌, ◌⊎◌, IfErr, IfOk, None, OnErr, OnOk, false};
ghost use Rattle.std.specs.Prelude.{length};
ghost use Rattle.std.specs.Str.{bytes_eq};
ghost use Rattle.payments.specs.Files.{with_bytes};
ghost use Rattle.sink_journal.specs.Alerts.{header};
ghost use Rattle.sink_journal.specs.Audit.{audit_header};
ghost use Rattle.sink_journal.specs.Records.{record_text};
ghost use Rattle.stream_run.specs.Unwritten.{IsOfFile, IsUnwritten};
ghost use Rattle.stream_call.specs.Opened.{IsAnew, IsOfFiles, IsOpened, names_of};
ghost use Rattle.stream_call.specs.Unopened.{HasOnlyAlerts, IsUnopened};

use crate::fault::StreamFault;
use crate::opened::{Asked, Opened, Origin, Requested, asked_in, boxed, make_opened, mode_of};
use fries_lines::{Fault, FileIs};
use fries_words::StreamFiles;
use jobs::Job;
use payments::{GrowingShelf, store};
use sink_journal::{alerts_header_text, audit_header_text};
use std::alloc::Global;
use stream_intake::begin;
use stream_run::fault_of;
use tuple_trace::{Bytes, NoMemory, Word};

/// Reads the job and the requests of a stream, and makes its files: each has its header alone.
///
/// No file changes before both are read.
pub(crate) fn begin_files<S: GrowingShelf>(
    alloc: Global,
    files: &StreamFiles,
    shelf: &mut S,
) -> Result<Box<Opened>, StreamFault>
    requires apart { bytes_eq files.now.alerts files.now.audit ≡ false }
    ensures opened { IfOk result (λ opened.
        IsOpened files.now opened.value (S.state shelf.new).files) }
    ensures of { IfOk result (λ opened.
        IsOfFiles files.now (S.state shelf.old).files opened.value) }
    ensures anew { IfOk result (λ opened. IsAnew files.now (S.state shelf.old).files
        (S.state shelf.new).files opened.value) }
    ensures closed { OnOk result ((S.state shelf.new).draft ≡ None) }
    ensures faults { OnOk result ((S.state shelf.new).faults ≡ (S.state shelf.old).faults) }
    ensures cause { IfErr result (IsUnopened files.now (S.state shelf.old)
        (S.state shelf.new)) }
{
    let Asked { job, source, file } = asked_in(alloc, files, shelf)?;
    let headers = headers_of(alloc, &job)?;
    let Requested { bytes, requests } = file;
    let intake = begin(alloc, Box::into_inner(job), requests, mode_of(files))?;
    let intake = boxed(alloc, intake)?;
    let opened = make_opened(alloc, intake, bytes, source, headers.origin())?;
    write_headers(files, &headers, shelf)?;
    Ok(opened)
}

// The headers of both files.
#[derive(Drop)]
struct Headers {
    alerts: Bytes,
    audit: Bytes,
}

fn headers_of(alloc: Global, job: &Job) -> Result<Headers, NoMemory>
    ensures alerts { IfOk result (λ headers.
        headers.alerts ≡ record_text (header job.now.columns)) }
    ensures audit { IfOk result (λ headers. headers.audit ≡ record_text audit_header) }
{
    let alerts = alerts_header_text(alloc, job)?;
    let audit = audit_header_text(alloc)?;
    Ok(Headers { alerts, audit })
}

impl Headers {
    // Where a stream begins whose files have these headers alone.
    fn origin(&self) -> Origin
        ensures left_out { result.left_out ≡ 0 }
        ensures behind { result.behind ≡ None }
        ensures alerts { result.alerts ≡ length self.now.alerts }
        ensures audit { result.audit ≡ length self.now.audit }
    {
        Origin {
            left_out: 0,
            behind: None,
            alerts: self.alerts.len() as u64,
            audit: self.audit.len() as u64,
        }
    }
}

// Makes both files.
fn write_headers<S: GrowingShelf>(
    files: &StreamFiles,
    headers: &Headers,
    shelf: &mut S,
) -> Result<(), Fault>
    ensures files { OnOk result ((S.state shelf.new).files ≡
        with_bytes (with_bytes (S.state shelf.old).files files.now.alerts headers.now.alerts)
        files.now.audit headers.now.audit) }
    ensures stopped { OnErr result (HasOnlyAlerts files.now (S.state shelf.old).files
        (S.state shelf.new).files) }
    ensures closed { (S.state shelf.new).draft ≡ None }
    ensures faults { OnOk result ((S.state shelf.new).faults ≡ (S.state shelf.old).faults) }
    ensures cause { IfErr result (IsUnwritten (names_of files.now)
        (S.state shelf.old).faults (S.state shelf.new).faults) }
{
    write_file(
        FileIs::Alerts,
        &files.alerts,
        headers.alerts.as_slice(),
        shelf,
    )?;
    write_file(FileIs::Audit, &files.audit, headers.audit.as_slice(), shelf)
}

fn write_file<S: GrowingShelf>(
    file: FileIs,
    name: &Word,
    text: &[u8],
    shelf: &mut S,
) -> Result<(), Fault>
    ensures files { OnOk result ((S.state shelf.new).files
        ≡ with_bytes (S.state shelf.old).files name.now text.now) }
    ensures as_before { OnErr result ((S.state shelf.new).files ≡ (S.state shelf.old).files) }
    ensures closed { (S.state shelf.new).draft ≡ None }
    ensures faults { OnOk result ((S.state shelf.new).faults ≡ (S.state shelf.old).faults) }
    ensures cause { IfErr result (λ why. IsOfFile file name.now (S.state shelf.old).faults
        (S.state shelf.new).faults why ⊎ (why ≡ Fault.NoMemory)
        × ((S.state shelf.new).faults ≡ (S.state shelf.old).faults)) }
{
    store(shelf, name, text).map_err(|why| fault_of(file, why))
}
