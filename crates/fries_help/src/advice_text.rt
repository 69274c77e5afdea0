// The whole message of a call.
ghost use Rattle.std.specs.Prelude.{◌≡◌, [], ℕ, List, None, Some, IfOk, IfSome, string_bytes};
ghost use Rattle.fries_help.specs.Codes.{help_code_of, refusal_code};
ghost use Rattle.fries_help.specs.Table.{help_view, help_with};
ghost use Rattle.fries_help.specs.Told.{TellsHelp, message as message_of};

use crate::audit_places::{actor_place, parts_place, record_place};
use crate::call::{Call, title_of};
use crate::codes::{help_of, help_of_refusal};
use crate::look::Look;
use crate::row_places::{row_place, save_place};
use crate::table::{Help, REFUSED};
use audit_fault::AuditFault;
use fries_help_places::{Place, TomlFile, job_place, push_reason, push_refused, request_place};
use fries_help_words::{opening, push_shown, word_fault};
use fries_lines::{Fault, FileIs};
use fries_steps::first_job;
use job_file::read_job;
use jobs::Job;
use payments::PFault;
use std::alloc::{AllocError, Global};
use std::fmt::Write;
use toml::Table;
use tuple_trace::{Bytes, NoMemory};
use versions::Refused;

/// What is told of a call whose status isn't 0, and nothing of any other.
///
/// The first line names the file, the code with what it names, and the place by its name and its
/// line. The lines after it say what the code means and what to do. Refused requests have such
/// lines each. Files are looked at again, and if one can't be, its names and lines are left out.
///
/// # Errors
///
/// [`NoMemory`] if the text itself has no room.
pub fn advice<L: Look>(alloc: Global, call: Call<'_>, look: &mut L) -> Result<String, NoMemory>
    ensures quiet { call.entry.fault ≡ None → call.entry.refused.now ≡ [] →
        IfOk result (λ text. string_bytes text ≡ []) }
    ensures fault { IfSome call.entry.fault (λ fault.
        IfOk result (λ text. TellsHelp (help_code_of fault) (string_bytes text))) }
{
    match call.fault {
        Some(fault) => Ok(fault_text(alloc, call, fault, look)?),
        None if call.refused.is_empty() => Ok(String::new(alloc)),
        None => Ok(refusals_text(alloc, call, look)?),
    }
}

/// What is told of the later part of a run that was saved after a row: how many rows it skipped.
///
/// # Errors
///
/// [`NoMemory`] if the text has no room.
pub fn skipped_rows(alloc: Global, row: u64) -> Result<String, NoMemory> {
    Ok(format!(in alloc; "fries: rows skipped, since the savepoint stands after them: {row}\n")?)
}

// ---- a message

/// A message: the first line, what is said of the code, and a line more if it isn't empty.
pub(crate) fn message(
    alloc: Global,
    head: &str,
    help: Help,
    detail: &str,
) -> Result<String, AllocError>
    ensures text { IfOk result (λ text. string_bytes text
        ≡ message_of head.now (help_view help.entry) detail.now) }
    ensures tells { (code : List ℕ) → help_with code ≡ Some (help_view help.entry) →
        IfOk result (λ text. TellsHelp code (string_bytes text)) }
{
    let Help { cause, cure, .. } = help;
    Ok(format!(in alloc; "{head}\n  {cause}\n{detail}  {cure}\n")?)
}

// A sentence on a line of its own, and nothing if there is none.
fn detail_line(alloc: Global, detail: &str) -> Result<String, AllocError> {
    let detail = detail.trim();
    if detail.is_empty() {
        Ok(String::new(alloc))
    } else {
        format!(in alloc; "  {detail}\n")
    }
}

// ---- faults

fn fault_text<L: Look>(
    alloc: Global,
    call: Call<'_>,
    fault: Fault,
    look: &mut L,
) -> Result<String, AllocError>
    ensures { IfOk result (λ text. TellsHelp (help_code_of fault) (string_bytes text)) }
{
    let place = match place_of(alloc, call, fault, look) {
        Ok(place) => place,
        Err(_) => Place::new(alloc),
    };
    let head = head_of(alloc, call, fault, place.note.as_str())?;
    let detail = detail_line(alloc, place.detail.as_str())?;
    message(alloc, head.as_str(), help_of(fault), detail.as_str())
}

// The first line: the file, the words of the fault if it has a code, and the names of the place.
fn head_of(alloc: Global, call: Call<'_>, fault: Fault, note: &str) -> Result<String, AllocError> {
    let mut out = String::new(alloc);
    match fault {
        Fault::Job(_) => push_coded(call, FileIs::Job, fault, &mut out)?,
        Fault::Requests(_) => push_coded(call, FileIs::Requests, fault, &mut out)?,
        Fault::Payments(_) => push_coded(call, FileIs::Payments, fault, &mut out)?,
        Fault::Save(_) => push_coded(call, FileIs::Save, fault, &mut out)?,
        Fault::Audit(_) | Fault::Part(_) => { push_coded(call, FileIs::Audit, fault, &mut out)? }
        Fault::Alerts(_) => push_coded(call, FileIs::Alerts, fault, &mut out)?,
        Fault::Read(file) | Fault::Write(file) | Fault::Long(file) => {
            push_file(call, file, &mut out)?
        }
        Fault::Usage => push_usage(call, &mut out)?,
        Fault::NoMemory => out.push_str("fries: memory")?,
    }
    if !note.is_empty() {
        write!(out, " ({note})")?;
    }
    Ok(out)
}

// The first line of a fault of the words, after the help of the program if there are none.
fn push_usage(call: Call<'_>, out: &mut String) -> Result<(), AllocError> {
    if call.not_utf8.is_none() {
        out.push_str(opening(call.words))?;
    }
    out.push_str(if out.is_empty() {
        "fries: usage"
    } else {
        "\nfries: usage"
    })
}

fn push_coded(
    call: Call<'_>,
    file: FileIs,
    fault: Fault,
    out: &mut String,
) -> Result<(), AllocError> {
    push_file(call, file, out)?;
    write!(out, ": {fault}")
}

/// Appends what a file is and its name.
pub(crate) fn push_file(call: Call<'_>, file: FileIs, out: &mut String) -> Result<(), AllocError> {
    let title = title_of(file);
    match call.name_of(file) {
        Some(name) => {
            write!(out, "fries: {title} ")?;
            push_shown(name, out)
        }
        None if file == FileIs::Payments && call.is_stream() => {
            out.push_str("fries: standard input")
        }
        // Other rows without a file are those that `make` makes.
        None if file == FileIs::Payments => out.push_str("fries: made rows"),
        None => write!(out, "fries: {title}"),
    }
}

// What the files tell of the place of a fault.
fn place_of<L: Look>(
    alloc: Global,
    call: Call<'_>,
    fault: Fault,
    look: &mut L,
) -> Result<Place, AllocError> {
    match fault {
        Fault::Job(fault) => match file_of(alloc, call, FileIs::Job, look) {
            Some(job) => job_place(alloc, job.as_slice(), fault),
            None => Ok(Place::new(alloc)),
        },
        Fault::Requests(fault) => match file_of(alloc, call, FileIs::Requests, look) {
            Some(requests) => request_place(alloc, requests.as_slice(), fault),
            None => Ok(Place::new(alloc)),
        },
        Fault::Payments(fault) => payments_place(alloc, call, fault, look),
        Fault::Save(fault) => match file_of(alloc, call, FileIs::Save, look) {
            Some(save) => save_place(alloc, save.as_slice(), fault),
            None => Ok(Place::new(alloc)),
        },
        Fault::Audit(fault) => audit_place(alloc, call, fault, look),
        Fault::Long(file) => limit_place(alloc, file),
        Fault::Usage => Ok(Place {
            note: String::new(alloc),
            detail: usage_detail(alloc, call)?,
        }),
        Fault::Alerts(_) | Fault::Part(_) | Fault::Read(_) | Fault::Write(_) | Fault::NoMemory =>
            Ok(Place::new(alloc)),
    }
}

// What is wrong with the words: one of them is no text, or else they have no form.
fn usage_detail(alloc: Global, call: Call<'_>) -> Result<String, AllocError> {
    match call.not_utf8 {
        Some(place) => format!(in alloc;
            "Word {place} isn't UTF-8; the name of the program is word 0."
        ),
        None => word_fault(alloc, call.words),
    }
}

// The line of a record of the audit, or the names of a worker or a lane.
fn audit_place<L: Look>(
    alloc: Global,
    call: Call<'_>,
    fault: AuditFault,
    look: &mut L,
) -> Result<Place, AllocError> {
    match fault {
        AuditFault::Shape(number) | AuditFault::Refused(number) | AuditFault::Feed(number) => {
            if call.is_of_parts() {
                return parts_place_by(alloc, call, number, look);
            }
            match file_of(alloc, call, FileIs::Audit, look) {
                Some(audit) => record_place(alloc, audit.as_slice(), number),
                None => Ok(Place::new(alloc)),
            }
        }
        AuditFault::Law(_) | AuditFault::Lane(_) | AuditFault::State(_) => {
            match file_of(alloc, call, FileIs::Job, look) {
                Some(job) => actor_place_by(alloc, job.as_slice(), fault),
                None => Ok(Place::new(alloc)),
            }
        }
        AuditFault::NoMemory => Ok(Place::new(alloc)),
    }
}

// What the bytes of a job file tell of a worker or a lane.
// The line of a record of parts that are put together.
fn parts_place_by<L: Look>(
    alloc: Global,
    call: Call<'_>,
    number: u64,
    look: &mut L,
) -> Result<Place, AllocError> {
    let Some(audit) = file_of(alloc, call, FileIs::Audit, look) else {
        return Ok(Place::new(alloc));
    };
    match job_of(alloc, call, look) {
        Some(job) => parts_place(alloc, &job, audit.as_slice(), number),
        None => Ok(Place::new(alloc)),
    }
}

fn actor_place_by(alloc: Global, job: &[u8], fault: AuditFault) -> Result<Place, AllocError> {
    match read_job(alloc, job) {
        Ok(job) => actor_place(alloc, &job, fault),
        Err(_) => Ok(Place::new(alloc)),
    }
}

fn payments_place<L: Look>(
    alloc: Global,
    call: Call<'_>,
    fault: PFault,
    look: &mut L,
) -> Result<Place, AllocError> {
    let rows = file_of(alloc, call, FileIs::Payments, look);
    match job_of(alloc, call, look) {
        Some(job) => row_place(alloc, Some(&job), slice_of(&rows), fault),
        None => row_place(alloc, None, slice_of(&rows), fault),
    }
}

// The job of a call: that of its job file, or that of `first`. The least amount of the latter
// changes none of its columns and sources, nor its weight.
fn job_of<L: Look>(alloc: Global, call: Call<'_>, look: &mut L) -> Option<Job> {
    if call.is_first() {
        return first_job(alloc, 0).ok();
    }
    let job = file_of(alloc, call, FileIs::Job, look)?;
    read_job(alloc, job.as_slice()).ok()
}

fn limit_place(alloc: Global, file: FileIs) -> Result<Place, AllocError> {
    let mut place = Place::new(alloc);
    let most = file.limit();
    write!(place.detail, "At most {most} bytes are read of it.")?;
    Ok(place)
}

/// The bytes of a file of the call.
pub(crate) fn file_of<L: Look>(
    alloc: Global,
    call: Call<'_>,
    file: FileIs,
    look: &mut L,
) -> Option<Bytes> {
    look.look(alloc, call.name_of(file)?, file.limit())
}

// ---- refused requests

// The documents of a call with refused requests, as far as they can be looked at again.
#[derive(Clone, Copy)]
struct Documents<'a> {
    job: Option<TomlFile<'a>>,
    requests: Option<TomlFile<'a>>,
}

fn refusals_text<L: Look>(
    alloc: Global,
    call: Call<'_>,
    look: &mut L,
) -> Result<String, AllocError> {
    let job = file_of(alloc, call, FileIs::Job, look);
    let requests = file_of(alloc, call, FileIs::Requests, look);
    let bytes = slice_of(&job);
    let table = table_of(alloc, bytes);
    refusals_text_by(alloc, call, toml_file(&table, bytes), slice_of(&requests))
}

fn slice_of(bytes: &Option<Bytes>) -> &[u8] {
    match bytes {
        Some(bytes) => bytes.as_slice(),
        None => &[],
    }
}

fn table_of(alloc: Global, bytes: &[u8]) -> Option<Table> {
    toml::table_from_slice(alloc, bytes).ok()
}

fn toml_file<'a>(table: &'a Option<Table>, bytes: &'a [u8]) -> Option<TomlFile<'a>> {
    match table {
        Some(table) => Some(TomlFile { table, bytes }),
        None => None,
    }
}

fn refusals_text_by<'a>(
    alloc: Global,
    call: Call<'_>,
    job: Option<TomlFile<'a>>,
    bytes: &'a [u8],
) -> Result<String, AllocError> {
    let table = table_of(alloc, bytes);
    let requests = toml_file(&table, bytes);
    let documents = Documents { job, requests };
    let mut head = String::new(alloc);
    push_file(call, FileIs::Requests, &mut head)?;
    let mut out = message(alloc, head.as_str(), REFUSED, "")?;
    push_refusals(alloc, documents, call.refused, &mut out)?;
    Ok(out)
}

fn push_refusals(
    alloc: Global,
    documents: Documents<'_>,
    all: &[Refused],
    out: &mut String,
) -> Result<(), AllocError> {
    for refused in all {
        out.push_str(refusal_text(alloc, documents, *refused)?.as_str())?;
    }
    Ok(())
}

fn refusal_text(
    alloc: Global,
    documents: Documents<'_>,
    refused: Refused,
) -> Result<String, AllocError>
    ensures { IfOk result (λ text. TellsHelp (refusal_code refused.fault) (string_bytes text)) }
{
    let help = help_of_refusal(refused.fault);
    let code = help.code;
    let mut head = format!(in alloc; "{code} at ")?;
    push_refused(documents.requests, refused, &mut head)?;
    let mut reason = String::new(alloc);
    push_reason(documents.job, documents.requests, refused, &mut reason)?;
    let detail = detail_line(alloc, reason.as_str())?;
    message(alloc, head.as_str(), help, detail.as_str())
}
