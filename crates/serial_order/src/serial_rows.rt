ghost use Rattle.std.specs.Prelude.{◌≡◌, IfOk, replicate, slice_get};
ghost use Rattle.flow_model.specs.Record.{record_view};
ghost use Rattle.flow_model.specs.Requests.{changes};
ghost use Rattle.flow_model.specs.Setup.{setup_view};
ghost use Rattle.flow_model.specs.Whole.{is_new};
ghost use Rattle.versions.specs.Book.{is_named as is_named_in};
ghost use Rattle.serial_order.specs.Places.{meets_new, rows_numbered};
ghost use Rattle.serial_order.specs.Serials.{serials};

use crate::places::number_after_turn;
use flow_model::{RunRecord, Setup};
use std::alloc::Global;
use tuple_trace::{Items, NoMemory, Rows};
use versions::Change;

/// For each row, in their order, the number of the last accepted request that it comes after. It is
/// 0 if the row comes before all requests.
pub type Serial = Items<u64>;

/// Finds for each row the greatest request at which the row is new, or 0 if it is new at none.
///
/// If the record is a run of these rows in ordered mode, the row comes after exactly the requests
/// up to this one. The only error is out of memory.
pub fn serial(alloc: Global, ran: &RunRecord, rows: &Rows) -> Result<Serial, NoMemory>
    ensures { IfOk result (λ serial. serial ≡ serials (record_view ran.now) rows.now) }
{
    let listed = rows.as_slice();
    let mut numbers = zeros(alloc, listed.len())?;
    for place in 0..ran.setup.request_count() {
        number_new(ran, place as u64 + 1, &mut numbers);
    }
    Ok(numbers)
}

fn zeros(alloc: Global, count: usize) -> Result<Serial, NoMemory>
    ensures { IfOk result (λ zeros. zeros ≡ replicate count 0) }
{
    let mut zeros = Serial::new(alloc);
    for _row in 0..count {
        zeros.push(0)?;
    }
    Ok(zeros)
}

// Gives the rows that are new at a request the request's number.
fn number_new(ran: &RunRecord, request: u64, numbers: &mut Serial)
    ensures { numbers.new
        ≡ rows_numbered (is_new (record_view ran.now) request) request 1 numbers.old }
{
    for worker in 0..ran.setup.workers() {
        if is_changed(&ran.setup, request, ran.setup.node_of(worker)) {
            number_at_worker(ran, worker, request, numbers);
        }
    }
}

// Gives the rows that a worker meets after its turn of a request the request's number.
fn number_at_worker(ran: &RunRecord, worker: u32, request: u64, numbers: &mut Serial)
    ensures { numbers.new ≡
        rows_numbered (λ row. meets_new request row
        (slice_get (record_view ran.now).journals worker))
        request 1 numbers.old }
{
    if let Some(journal) = ran.journals.as_slice().get(worker as usize) {
        number_after_turn(journal.as_slice(), request, numbers);
    }
}

fn is_changed(setup: &Setup, request: u64, node: u32) -> bool
    ensures { result ≡ changes (setup_view setup.now) request node }
{
    match setup.request(request) {
        Some(request) => is_named(request.changes.as_slice(), node),
        None => false,
    }
}

fn is_named(changes: &[Change], node: u32) -> bool
    ensures { result ≡ is_named_in changes.now node }
{
    changes.iter().any(|change| change.node == node)
}
