// The feed of some rows: what the feeder of every run of them does.
ghost use Rattle.std.specs.Prelude.{◌≡◌, ◌++◌, IfOk, OnOk};
ghost use Rattle.flow_model.specs.Requests.{afters};
ghost use Rattle.flow_model.specs.Setup.{setup_view};
ghost use Rattle.audit_laws.specs.Delivered.{feed_of};
ghost use Rattle.audit_check.specs.Issuing.{AreIssuedUpTo, issues};

use flow_model::{Setup, Start};
use sink_journal::{Feed, Feeds};
use std::alloc::Global;
use tuple_trace::{NoMemory, Rows};

/// The feed of these rows from this beginning on: each row in order, each request after the row
/// that it waits for, and the end. A request that waits for a row that was fed before stands at the
/// front. Each request is looked at once.
pub fn feed_of_rows(
    alloc: Global,
    setup: &Setup,
    start: &Start,
    rows: &Rows,
) -> Result<Feeds, NoMemory>
    ensures { IfOk result (λ feeds. feeds ≡ feed_of start.now (setup_view setup.now) rows.now) }
{
    let count = rows.as_slice().len() as u64;
    let mut feeds = Feeds::new(alloc);
    let mut issued = push_due(setup, &mut feeds, start.turned, start.row, count)?;
    for row in start.row..count {
        feeds.push(Feed::Fed(row + 1))?;
        issued = push_due(setup, &mut feeds, issued, row + 1, count)?;
    }
    feeds.push(Feed::Stopped)?;
    Ok(feeds)
}

// Appends the requests that wait for a row up to this one, of `rows` rows, after the first `issued`
// requests. Returns how many are issued then.
fn push_due(
    setup: &Setup,
    feeds: &mut Feeds,
    issued: u64,
    row: u64,
    rows: u64,
) -> Result<u64, NoMemory>
    ensures waits { IfOk result (λ now.
        AreIssuedUpTo (afters (setup_view setup.now).requests) rows row issued now) }
    ensures feeds { OnOk result (feeds.new ≡ feeds.old
        ++ issues (afters (setup_view setup.now).requests) rows row issued) }
{
    let count = setup.request_count() as u64;
    for place in issued..count {
        let request = place + 1;
        if setup.after(request).min(rows) > row {
            return Ok(place);
        }
        feeds.push(Feed::Issued(request))?;
    }
    Ok(issued.max(count))
}
