// The whole message of a stream.
ghost use Rattle.std.specs.Prelude.{◌≡◌, IfOk, IfSome, string_bytes};
ghost use Rattle.fries_help.specs.Codes.{stream_code};
ghost use Rattle.fries_help.specs.Told.{TellsHelp};

use crate::advice_text::{advice, file_of, message, push_file};
use crate::call::Call;
use crate::codes::help_of_stream;
use crate::look::Look;
use crate::row_places::save_place;
use fries_help_places::Place;
use fries_lines::{Fault, FileIs};
use savepoint::SaveFault;
use std::alloc::{AllocError, Global};
use std::fmt::Write;
use stream_call::StreamFault;
use stream_save::StreamSaveFault;
use tuple_trace::NoMemory;

/// What is told of a stream whose status isn't 0, and nothing of any other. The fault is this one,
/// and not that of the call.
///
/// # Errors
///
/// [`NoMemory`] if the text itself has no room.
pub fn stream_advice<L: Look>(
    alloc: Global,
    call: Call<'_>,
    fault: Option<StreamFault>,
    look: &mut L,
) -> Result<String, NoMemory>
    ensures { IfSome fault (λ fault.
        IfOk result (λ text. TellsHelp (stream_code fault) (string_bytes text))) }
{
    match fault {
        None => advice(alloc, with_fault(call, None), look),
        Some(StreamFault::Call(fault)) => advice(alloc, with_fault(call, Some(fault)), look),
        Some(fault) => Ok(stream_text(alloc, call, fault, look)?),
    }
}

fn with_fault(call: Call<'_>, fault: Option<Fault>) -> Call<'_>
    ensures { result.fault ≡ fault }
{
    Call { fault, ..call }
}

fn stream_text<L: Look>(
    alloc: Global,
    call: Call<'_>,
    fault: StreamFault,
    look: &mut L,
) -> Result<String, AllocError>
    ensures { IfOk result (λ text. TellsHelp (stream_code fault) (string_bytes text)) }
{
    let place = match stream_place(alloc, call, fault, look) {
        Ok(place) => place,
        Err(_) => Place::new(alloc),
    };
    let head = stream_head(alloc, call, fault, place.note.as_str())?;
    message(alloc, head.as_str(), help_of_stream(fault), "")
}

fn stream_head(
    alloc: Global,
    call: Call<'_>,
    fault: StreamFault,
    note: &str,
) -> Result<String, AllocError> {
    let mut out = String::new(alloc);
    push_file(call, stream_file(fault), &mut out)?;
    write!(out, ": {fault}")?;
    if !note.is_empty() {
        write!(out, " ({note})")?;
    }
    Ok(out)
}

// The file that a fault of a stream is of.
fn stream_file(fault: StreamFault) -> FileIs {
    match fault {
        StreamFault::Save(StreamSaveFault::Alerts(_)) => FileIs::Alerts,
        StreamFault::Save(StreamSaveFault::Audit(_)) => FileIs::Audit,
        StreamFault::Save(StreamSaveFault::Past(_)) | StreamFault::Ahead(_) => FileIs::Payments,
        StreamFault::Save(_) | StreamFault::Call(_) => FileIs::Save,
    }
}

// The line of a record of the savepoint.
fn stream_place<L: Look>(
    alloc: Global,
    call: Call<'_>,
    fault: StreamFault,
    look: &mut L,
) -> Result<Place, AllocError> {
    let number = match fault {
        StreamFault::Save(
            StreamSaveFault::Shape(number)
            | StreamSaveFault::Count(number)
            | StreamSaveFault::State(number),
        ) => number,
        _ => return Ok(Place::new(alloc)),
    };
    match file_of(alloc, call, FileIs::Save, look) {
        Some(save) => save_place(alloc, save.as_slice(), SaveFault::Shape(number)),
        None => Ok(Place::new(alloc)),
    }
}
