ghost use Rattle.std.specs.Prelude.{◌≡◌, ◌<◌, ◌≤◌, ℕ, IfOk, IsTrue, List, None, [], OnErr, Some};
ghost use Rattle.std.specs.Prelude.{false, length, slice_get, true, map};
ghost use Rattle.std.specs.Option.{ForSome};
ghost use Rattle.jobs.specs.Nodes.{AreFromSources};
ghost use Rattle.tuple_trace.specs.declared.row.Row.{Row as RowIs};
ghost use Rattle.flow_model.specs.Begin.{Begin, at_first};
ghost use Rattle.flow_model.specs.Feeding.{fed_tuple};
ghost use Rattle.flow_model.specs.Requests.{afters};
ghost use Rattle.flow_model.specs.Setup.{setup_view};
ghost use Rattle.coordinator.specs.Feeding.{IsFeeder, IsFeeding};
ghost use Rattle.coordinator.specs.Live.{AreHeard, Hears, IsFromFirst, released_rows};
ghost use Rattle.coordinator.specs.Starts.{AreNewOuts, AreUnused};
ghost use Rattle.coordinator.specs.Steps.{Feeds, IsAhead, IsReached, Issues, Steps, Stops};
ghost use Rattle.coordinator.specs.Turning.{IsFeederTurn};
ghost use Rattle.coordinator.specs.Views.{FeederIs};

use crate::FeedTurn;
use crate::boxes::Boxes;
use crate::outs::Outs;
use crate::place::{place_of, places_of};
use control_box::Poster;
use flow_model::{Setup, setups_are_planned};
use lane_core::Tx;
use sink_journal::{Feed, Feeds};
use std::alloc::Global;
use std::marker::Model;
use tuple_trace::{FeedRows, Gate, Item, NoMemory, Row, Tuple};
use versions::accepted_requests_are_in_order;

/// What a feeder has done and holds. `N` is what the calls of its lanes take from the toolchain.
#[derive(Drop)]
pub struct FeederState<N, T: Tx<N>> {
    feeds: Vec<Feed>,
    outs: Outs<N, T>,
    boxes: Boxes,
    /// How many rows were fed and how many requests turned before it began.
    begin_row: usize,
    begin_turned: usize,
    /// How many rows are fed, requests issued and lanes ended.
    row: usize,
    issued: usize,
    ended: usize,
    stopped: bool,
    /// The tuple of the next row, if its lane was full.
    held: Option<Tuple>,
    /// For each lane of the job, how many earlier lanes begin at a source.
    places: Vec<usize>,
}

impl<N, T: Tx<N>> Model for FeederState<N, T> {
    ghost use Rattle.std.specs.Prelude.{[]};
    ghost use Rattle.coordinator.specs.Views.{FeederIs};

    ghost Value = { FeederIs };

    ghost view = { λ f. record {
      feeds = f.feeds.items;
      outs = f.outs;
      boxes = f.boxes;
      begin_row = f.begin_row;
      begin_turned = f.begin_turned;
      row = f.row;
      issued = f.issued;
      ended = f.ended;
      stopped = f.stopped;
      held = f.held;
      places = f.places.items;
      loads = [];
    } };
}

impl<N, T: Tx<N> + Drop> FeederState<N, T> {
    /// The state of a feeder from a beginning on. A refusal gives endpoints and boxes up.
    pub fn make(
        alloc: Global,
        setup: &Setup,
        outs: Vec<T>,
        posters: Vec<Poster>,
        row: usize,
        turned: usize,
    ) -> Result<FeederState<N, T>, NoMemory>
        requires turned { turned ≤ length (setup_view setup.now).requests }
        requires outs { AreNewOuts (setup_view setup.now).job (map T.state outs.items) }
        requires boxes { AreUnused (setup_view setup.now) posters.items }
        ensures law { IfOk result (λ (f : FeederIs). (begin : Begin) (rows : List RowIs)
            → begin.row ≡ row → begin.turned ≡ turned
            → IsFeeder false (setup_view setup.now) begin rows f) }
        ensures fresh { IfOk result (λ (f : FeederIs). f.feeds ≡ []) }
        ensures live { row ≡ 0 → turned ≡ 0 → IfOk result (λ (f : FeederIs). IsFromFirst f
            × ((loads : List ℕ) (rows : List RowIs) → IsFeeder true (setup_view setup.now)
            (at_first (setup_view setup.now)) rows (record f { loads = loads }))) }
        ensures outs { IfOk result (λ (f : FeederIs). f.outs ≡ map T.state outs.items) }
        ensures boxes { IfOk result (λ (f : FeederIs). f.boxes.posters ≡ posters.items) }
    {
        setups_are_planned(setup);
        accepted_requests_are_in_order();
        let boxes = Boxes::of(alloc, posters)?;
        let places = places_of(alloc, setup.topology.lanes.as_slice())?;
        Ok(FeederState {
            feeds: Vec::new(alloc),
            outs: Outs::of(outs),
            boxes,
            begin_row: row,
            begin_turned: turned,
            row,
            issued: turned,
            ended: 0,
            stopped: false,
            held: None,
            places,
        })
    }

    /// One turn of a feeder that isn't live.
    pub fn turn<G: Gate>(
        &mut self,
        need: &mut N,
        setup: &Setup,
        rows: &FeedRows<'_>,
        gate: &G,
    ) -> FeedTurn
        requires law { (begin : Begin) × IsFeeder false (setup_view setup.now) begin rows.now
            self.old }
        requires rows { AreFromSources (setup_view setup.now).job rows.now }
        ensures { IsFeederTurn false (setup_view setup.now) rows.now result self.old self.new }
    {
        let _requests = setup.request_count();
        self.step(need, setup, rows, gate, u64::MAX)
    }

    /// One turn of a live feeder that began at the first row, if `released` requests are released.
    pub fn live_turn<G: Gate>(
        &mut self,
        need: &mut N,
        setup: &Setup,
        rows: &FeedRows<'_>,
        gate: &G,
        released: u64,
    ) -> FeedTurn
        requires first { IsFromFirst self.old }
        requires law { (begin : Begin) × (loads : List ℕ)
            × IsFeeder true (setup_view setup.now) begin
            rows.now (record self.old { loads = loads }) }
        requires rows { AreFromSources (setup_view setup.now).job rows.now }
        ensures first { IsFromFirst self.new }
        ensures turn { (old new : List ℕ)
            → Hears (length (setup_view setup.now).requests) released old new
            → IsFeederTurn true (setup_view setup.now) rows.now result
            (record self.old { loads = old })
            (record self.new { loads = new }) }
        ensures heard { (begin : Begin) (old new : List ℕ)
            → Hears (length (setup_view setup.now).requests) released old new
            → IsFeeder true (setup_view setup.now) begin rows.now (record self.old { loads = old })
            → AreHeard old self.old.feeds → AreHeard new self.new.feeds }
    {
        self.step(need, setup, rows, gate, released)
    }

    /// The feed and the endpoints.
    pub fn open(self) -> (Feeds, Vec<T>)
        ensures feeds { result.0 ≡ self.feeds }
        ensures outs { self.outs ≡ map T.state result.1.items }
    {
        let FeederState { feeds, outs, .. } = self;
        (Feeds::from_vec(feeds), outs.open())
    }

    fn step<G: Gate>(
        &mut self,
        need: &mut N,
        setup: &Setup,
        rows: &FeedRows<'_>,
        gate: &G,
        released: u64,
    ) -> FeedTurn
        requires law { (begin : Begin) × (waits : List ℕ)
            × IsFeeding (setup_view setup.now) begin waits rows.now self.old }
        requires rows { AreFromSources (setup_view setup.now).job rows.now }
        ensures { Steps (setup_view setup.now) (released_rows released (length rows.now)
            (afters (setup_view setup.now).requests)) rows.now self.old self.new result }
    {
        if self.stopped {
            return FeedTurn::Done;
        }
        if self.is_due(setup, rows.len(), released) {
            return self.issue_next(setup, rows, gate);
        }
        if self.row < rows.len() {
            return self.feed_next(need, setup, rows);
        }
        self.stop_next(need, setup, rows)
    }

    // Whether the next request is released and its row is fed, or all rows are fed.
    fn is_due(&self, setup: &Setup, rows: usize, released: u64) -> bool
        ensures due { IsTrue result → IsReached (released_rows released rows
            (afters (setup_view setup.now).requests)) rows self.now.row self.now.issued }
        ensures undue { result ≡ false → IsAhead (released_rows released rows
            (afters (setup_view setup.now).requests)) rows self.now.row self.now.issued }
    {
        if self.issued >= setup.request_count() {
            return false;
        }
        self.row_waited_for(setup, rows as u64, released)
            .min(rows as u64)
            <= self.row as u64
    }

    // The row that the next request waits for: the last one, if it isn't released.
    fn row_waited_for(&self, setup: &Setup, rows: u64, released: u64) -> u64
        requires left { self.now.issued < length (setup_view setup.now).requests }
        ensures { slice_get (released_rows released rows (afters (setup_view setup.now).requests))
            self.now.issued ≡ Some result }
    {
        if self.issued as u64 >= released {
            return rows;
        }
        setup.after(self.issued as u64 + 1)
    }

    // Issues the next request, once each worker has turned all earlier ones that cover it.
    fn issue_next<G: Gate>(&mut self, setup: &Setup, rows: &FeedRows<'_>, gate: &G) -> FeedTurn
        requires law { (begin : Begin) × (waits : List ℕ)
            × IsFeeding (setup_view setup.now) begin waits rows.now self.old }
        requires left { self.old.issued < length (setup_view setup.now).requests }
        ensures { Issues (setup_view setup.now) self.old self.new result }
    {
        if self.feeds.reserve(1).is_err() {
            return FeedTurn::NoMemory;
        }
        let _requests = setup.request_count();
        if !self.boxes.are_ready() {
            return FeedTurn::Idle;
        }
        let request = self.issued as u64 + 1;
        self.boxes.post(setup, request);
        gate.issued(request);
        self.feeds.push_reserved(Feed::Issued(request));
        self.issued += 1;
        FeedTurn::Moved
    }

    // Feeds the next row.
    fn feed_next(&mut self, need: &mut N, setup: &Setup, rows: &FeedRows<'_>) -> FeedTurn
        requires law { (begin : Begin) × (waits : List ℕ)
            × IsFeeding (setup_view setup.now) begin waits rows.now self.old }
        requires rows { AreFromSources (setup_view setup.now).job rows.now }
        requires left { self.old.row < length rows.now }
        ensures { Feeds (setup_view setup.now).job rows.now self.old self.new result }
    {
        if self.feeds.reserve(1).is_err() {
            return FeedTurn::NoMemory;
        }
        let Some(row) = rows.kept(self.row) else {
            return FeedTurn::NoMemory;
        };
        let Ok(tuple) = take_tuple(&mut self.held, row, self.issued as u64) else {
            return FeedTurn::NoMemory;
        };
        let places = self.places.as_slice();
        let place = place_of(setup, places, row.source, &row.tuple);
        match self.outs.feed(need, place, tuple) {
            Ok(()) => {
                self.row += 1;
                self.feeds.push_reserved(Feed::Fed(self.row as u64));
                FeedTurn::Moved
            }
            Err(back) => {
                self.held = Some(back);
                FeedTurn::Idle
            }
        }
    }

    // Ends the next lane, or stops if each is ended.
    fn stop_next(&mut self, need: &mut N, setup: &Setup, rows: &FeedRows<'_>) -> FeedTurn
        requires law { (begin : Begin) × (waits : List ℕ)
            × IsFeeding (setup_view setup.now) begin waits rows.now self.old }
        ensures { Stops self.old self.new result }
    {
        if self.ended < self.outs.len() {
            if self.outs.put(need, self.ended, Item::Last).is_err() {
                return FeedTurn::Idle;
            }
            self.ended += 1;
            return FeedTurn::Moved;
        }
        if self.feeds.reserve(1).is_err() {
            return FeedTurn::NoMemory;
        }
        self.feeds.push_reserved(Feed::Stopped);
        self.stopped = true;
        FeedTurn::Done
    }
}

// The tuple of a row once these requests are issued: the one that is held, or else a copy.
fn take_tuple(held: &mut Option<Tuple>, row: &Row, issued: u64) -> Result<Tuple, NoMemory>
    requires { ForSome held.old (λ tuple.
        record tuple { issued = issued } ≡ fed_tuple issued row.now) }
    ensures tuple { IfOk result (λ tuple. (tuple ≡ fed_tuple issued row.now) × (held.new ≡ None)) }
    ensures held { OnErr result (held.new ≡ held.old) }
{
    let mut tuple = match held.take() {
        Some(tuple) => tuple,
        None => row.tuple.copy()?,
    };
    tuple.issued = issued;
    Ok(tuple)
}
