mod drain;
mod rule;

ghost use Rattle.crossbeam_queue.specs.Passes.{view, IsPassOf, ruled_capacity};
ghost use Rattle.std.specs.Prelude.{◌≡◌, true};
ghost use Rattle.std.specs.Arc.{arc_value};

use crate::{Lanes, Left, Origin, Rx, Tx, are_apart};
use crossbeam_queue::Pass;
use drain::drain;
use rule::{Line, Puts, Takes, View, Whole, part};
use std::alloc::Global;
use std::marker::Brand;
use std::sync::{Arc, Wait};
use tuple_trace::{Item, NoMemory};

/// The sending end of a queue lane.
#[derive(Drop)]
pub struct QueueTx {
    line: Arc<Line, Global>,
    pass: Pass<Item, View>,
    number: u32,
    full: u64,
    ghost of_line: { IsPassOf (arc_value line) pass },
    ghost first: { pass.id ≡ 0 },
    ghost role: { (view pass).puts ≡ true },
    ghost room: { ruled_capacity (arc_value line) ≡ (view pass).capacity },
}

impl QueueTx {
    /// Returns the number of the lane.
    pub fn number(&self) -> u32
        ensures { result ≡ self.now.number }
    {
        self.number
    }

    /// A law: no two lanes have one table, since no two sending ends have. Both ends stay on their
    /// lanes.
    pub fn apart(&mut self, other: &mut QueueTx)
        ensures same { (self.new.pass ≡ self.old.pass) × (other.new.pass ≡ other.old.pass) }
        ensures apart { ¬ (self.old.pass.table_id ≡ other.old.pass.table_id) }
    {
        are_apart(&mut self.pass, &mut other.pass);
    }
}

impl<R: Wait> Tx<R> for QueueTx {
    ghost state = { λ s. record {
      lane = record { table = s.pass.table_id; capacity = (view s.pass).capacity };
      number = s.number;
      origin = (view s.pass).origin;
      items = (view s.pass).sent;
      stalls = s.full;
    } };

    fn put(&mut self, need: &mut R, item: Item) -> Result<(), Item> {
        match self.line.push_as::<Puts, R>(need, &mut self.pass, item) {
            Ok(()) => Ok(()),
            Err(back) => {
                self.full = self.full.saturating_add(1);
                Err(back)
            }
        }
    }
}

/// The receiving end of a queue lane.
#[derive(Drop)]
pub struct QueueRx {
    line: Arc<Line, Global>,
    pass: Pass<Item, View>,
    number: u32,
    dry: u64,
    ghost of_line: { IsPassOf (arc_value line) pass },
    ghost role: { (view pass).takes ≡ true },
}

impl QueueRx {
    /// Returns the number of the lane.
    pub fn number(&self) -> u32
        ensures { result ≡ self.now.number }
    {
        self.number
    }
}

impl<R: Wait> Rx<R> for QueueRx {
    ghost state = { λ s. record {
      lane = record { table = s.pass.table_id; capacity = (view s.pass).capacity };
      number = s.number;
      origin = (view s.pass).origin;
      items = (view s.pass).taken;
      stalls = s.dry;
    } };

    fn take(&mut self, need: &mut R) -> Option<Item> {
        match self.line.pop_as::<Takes, R>(need, &mut self.pass) {
            Some(item) => Some(item),
            None => {
                self.dry = self.dry.saturating_add(1);
                None
            }
        }
    }
}

/// Lanes over bounded queues, whose calls may wait for each other.
#[derive(Drop)]
pub struct QueueLanes<R> {
    rt: R,
}

impl<R> QueueLanes<R> {
    /// Keeps the runtime, with its leave to wait. Takes no memory.
    pub fn new(rt: R) -> QueueLanes<R> {
        QueueLanes { rt }
    }
}

impl<R: Wait + Copy + Send + Sync> Lanes for QueueLanes<R> {
    type Need = R;

    type Tx = QueueTx;

    type Rx = QueueRx;

    fn need(&self) -> R {
        self.rt
    }

    fn make(
        &self,
        alloc: Global,
        number: u32,
        cap: u32,
        origin: Origin,
    ) -> Result<(QueueTx, QueueRx), NoMemory> {
        let (line, mut pass) = Line::ruled(alloc, cap as usize)?;
        let other = part::<Brand>(&line, &mut pass, cap, origin);
        let line = Arc::new(alloc, line)?;
        let again = Arc::try_clone(&line)?;
        let tx = QueueTx {
            line,
            pass,
            number,
            full: 0,
        };
        let rx = QueueRx {
            line: again,
            pass: other,
            number,
            dry: 0,
        };
        Ok((tx, rx))
    }

    fn settle(
        &self,
        alloc: Global,
        need: &mut R,
        tx: QueueTx,
        rx: QueueRx,
    ) -> Result<Left, NoMemory> {
        let QueueTx {
            line: _,
            pass: sender,
            number: _,
            full: _,
        } = tx;
        let QueueRx {
            line,
            mut pass,
            number: _,
            dry: _,
        } = rx;
        line.absorb::<Whole>(&mut pass, sender);
        drain(need, alloc, &line, pass)
    }
}
