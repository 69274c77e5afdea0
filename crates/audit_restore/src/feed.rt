// What the feeder puts on its lanes.
ghost use Rattle.std.specs.Prelude.{◌≡◌, ◌<◌, ◌↔◌, ◌++◌, IfOk, IsTrue, List, None, OnOk, Some};
ghost use Rattle.std.specs.Prelude.{length};
ghost use Rattle.std.specs.Prelude.{option_copied, slice_get};
ghost use Rattle.jobs.specs.Nodes.{AreFromSources, IsSourceOf};
ghost use Rattle.flow_model.specs.Feeding.{fed_put, row_numbered as row_of};
ghost use Rattle.flow_model.specs.Replay.{Put};
ghost use Rattle.flow_model.specs.Setup.{setup_view};
ghost use Rattle.flow_model.specs.declared.topology.Lane.{Lane as LaneIs};
ghost use Rattle.flow_model.specs.Lanes.{lanes};
ghost use Rattle.audit_laws.specs.Delivered.{feed_of};
ghost use Rattle.audit_restore.specs.Standing.{AreAtTheirEnd, HoldsLanes, HoldsFeed};

use crate::standing::Standing;
use flow_model::{Setup, Start, WorkerAt};
use sink_journal::Feed;
use std::alloc::Global;
use tuple_trace::{Item, NoMemory, Row, Rows};

/// What stands on the lanes if the feeder does these steps after a start.
pub(crate) fn fed_lanes(
    alloc: Global,
    setup: &Setup,
    start: &Start,
    rows: &Rows,
    feeds: &[Feed],
) -> Result<Standing, NoMemory>
    requires sources { AreFromSources (setup_view setup.now).job rows.now }
    requires feeds { feeds.now ≡ feed_of start.now (setup_view setup.now) rows.now }
    ensures { IfOk result
        (HoldsFeed (setup_view setup.now).job rows.now start.now.turned feeds.now) }
{
    let mut standing = Standing::empty(alloc, setup.topology.lanes.len())?;
    let list = rows.as_slice();
    // The feed issues no request twice, so the count stays in range.
    let _request_count = setup.request_count();
    let mut issued = start.turned;
    for step in feeds {
        match step {
            Feed::Fed(row) => feed(setup, &mut standing, list, *row, issued)?,
            Feed::Issued(_) => issued += 1,
            Feed::Stopped => {}
        }
    }
    end(setup, &mut standing)?;
    Ok(standing)
}

// Puts the tuple of a row on its lane, after `issued` requests were issued.
fn feed(
    setup: &Setup,
    standing: &mut Standing,
    rows: &[Row],
    row: u64,
    issued: u64,
) -> Result<(), NoMemory>
    requires sources { AreFromSources (setup_view setup.now).job rows.now }
    requires long { length standing.old ≡ length (lanes (setup_view setup.now).job) }
    ensures { (puts : List Put) → HoldsLanes (setup_view setup.now).job standing.old puts
        → OnOk result
        (HoldsLanes (setup_view setup.now).job standing.new (puts
        ++ fed_put (setup_view setup.now).job issued (row_of rows.now row))) }
{
    match row_at(rows, row) {
        Some(found) => put(setup, standing, found, issued),
        None => Ok(()),
    }
}

fn put(setup: &Setup, standing: &mut Standing, row: &Row, issued: u64) -> Result<(), NoMemory>
    requires source { IsSourceOf (setup_view setup.now).job row.now.source }
    requires long { length standing.old ≡ length (lanes (setup_view setup.now).job) }
    ensures { (puts : List Put) → HoldsLanes (setup_view setup.now).job standing.old puts
        → OnOk result
        (HoldsLanes (setup_view setup.now).job standing.new (puts
        ++ fed_put (setup_view setup.now).job issued (Some row.now))) }
{
    let feeder = WorkerAt {
        node: row.source,
        place: 0,
    };
    let tuple = row.tuple.under(issued)?;
    let Some(lane) = setup.route(feeder, 0, &row.tuple) else {
        return Ok(());
    };
    standing.put(lane as usize, Item::Carry(tuple))?;
    Ok(())
}

// The row with this number. Rows are counted from 1.
fn row_at(rows: &[Row], number: u64) -> Option<&Row>
    ensures { option_copied result ≡ row_of rows.now number }
{
    let place = number.checked_sub(1)?;
    rows.get(place as usize)
}

// Puts the end on each lane of the feeder.
fn end(setup: &Setup, standing: &mut Standing) -> Result<(), NoMemory>
    requires { length standing.old ≡ length (lanes (setup_view setup.now).job) }
    ensures { OnOk result (AreAtTheirEnd (setup_view setup.now).job standing.old standing.new) }
{
    for number in 0..standing.len() {
        if is_fed(setup, number) {
            standing.put(number, Item::Last)?;
        }
    }
    Ok(())
}

// Whether the feeder sends on the lane with this number.
fn is_fed(setup: &Setup, number: usize) -> bool
    requires { number < length (lanes (setup_view setup.now).job) }
    ensures { (lane : LaneIs) → slice_get (lanes (setup_view setup.now).job) number ≡ Some lane →
        IsTrue result ↔ (lane.sender ≡ None) }
{
    setup.topology.lanes.as_slice()[number].sender.is_none()
}
