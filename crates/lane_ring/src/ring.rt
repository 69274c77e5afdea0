ghost use Rattle.std.specs.Prelude.{◌≡◌, ℕ, ◌+◌, ◌<◌, ◌≤◌, [], ◌∷◌, ◌++◌, length};
ghost use Rattle.std.specs.Prelude.{true, IfErr, IfOk, IfSome, IfNone, OnErr, OnOk};
ghost use Rattle.std.specs.Arc.{arc_value};
ghost use Rattle.std.specs.Bool.{OnTrue, OnFalse};
ghost use Rattle.lane_core.specs.Lane.{WasFull, after_item};
ghost use Rattle.lane_core.specs.Steady.{IsSteady, MayFollow};
ghost use Rattle.lane_ring.specs.declared.rule.TheConstants.{WORDS};
ghost use Rattle.tuple_trace.specs.declared.limits.TheConstants.{MAX_CAPACITY};
ghost use Rattle.lane_ring.specs.Rule.{HasStalledOnce, receiver_slots, receiving_end, sender_slots};
ghost use Rattle.lane_ring.specs.Rule.{sending_end, word_at};

use crate::places::{next_word, opposite, slot_at};
use crate::rule::{
    Charter, GivesBack, JoinSeats, LoadsSent, LoadsTaken, SENT, Slots, SplitSeats, StoresSent,
    StoresTaken, TAKEN, View, WORDS,
};
use atomic_table::Seat;
use lane_core::{Lanes, Left, Origin, Rx, Tx, are_apart};
use std::alloc::Global;
use std::sync::Arc;
use tuple_trace::{Item, NoMemory};

/// The sending end of a ring lane.
#[derive(Drop)]
pub struct RingTx {
    ring: Arc<Slots, Global>,
    seat: Seat<Option<Item>, View>,
    number: u32,
    capacity: u64,
    tail: u64,
    // The word at which no slot is known to be free.
    limit: u64,
    ghost of_ring: { ((arc_value ring).shared.table_id ≡ seat.table_id)
        × (seat.table_id.words ≡ WORDS) },
    ghost first: { seat.id ≡ 0 },
    ghost role: { (seat.me.0.puts ≡ true) × (seat.me.1 ≡ sender_slots seat.me.0) },
    ghost sized: { (capacity ≡ seat.me.0.capacity) × (0 < capacity) × (capacity ≤ MAX_CAPACITY) },
    ghost tail_is: { tail ≡ word_at capacity (length seat.me.0.sent) },
    ghost limit_is: { (limit ≡ word_at capacity (length seat.me.0.sent + seat.me.0.spare))
        × (seat.me.0.spare ≤ capacity) },
}

impl RingTx {
    /// Returns the number of the lane.
    pub fn number(&self) -> u32
        ensures { result ≡ self.now.number }
    {
        self.number
    }

    /// A law: no two lanes have one table, since no two sending ends have. Both ends stay on their
    /// lanes.
    pub fn apart(&mut self, other: &mut RingTx)
        ensures same { (self.new.seat ≡ self.old.seat) × (other.new.seat ≡ other.old.seat) }
        ensures apart { ¬ (self.old.seat.table_id ≡ other.old.seat.table_id) }
    {
        are_apart(&mut self.seat, &mut other.seat);
    }

    // Loads how many items were taken. Returns whether a slot is free now.
    fn look(&mut self) -> bool
        requires { self.old.seat.me.0.spare ≡ 0 }
        ensures end { (self.new.number ≡ self.old.number)
            × (self.new.seat.table_id ≡ self.old.seat.table_id)
            × (self.new.seat.me.0.capacity ≡ self.old.seat.me.0.capacity)
            × (self.new.seat.me.0.origin ≡ self.old.seat.me.0.origin)
            × (self.new.seat.me.0.sent ≡ self.old.seat.me.0.sent) }
        ensures room { OnTrue result ((0 < self.new.seat.me.0.spare)
            × (self.new.seat.me.0.full ≡ self.old.seat.me.0.full)) }
        ensures full { OnFalse result ((self.new.seat.me.0.full ≡ self.old.seat.me.0.full + 1)
            × WasFull self.old.seat.me.0.capacity self.old.seat.me.0.sent) }
    {
        let head = self.ring.shared.load::<LoadsTaken>(&mut self.seat, TAKEN);
        let limit = opposite(head, self.capacity);
        if limit == self.tail {
            return false;
        }
        self.limit = limit;
        true
    }

    // Puts the item in the free slot that is out.
    fn send(&mut self, item: Item)
        requires spare { 0 < self.old.seat.me.0.spare }
        requires follows { MayFollow self.old.seat.me.0.origin self.old.seat.me.0.sent item }
        ensures end { (self.new.number ≡ self.old.number)
            × (self.new.seat.table_id ≡ self.old.seat.table_id)
            × (self.new.seat.me.0.capacity ≡ self.old.seat.me.0.capacity)
            × (self.new.seat.me.0.origin ≡ self.old.seat.me.0.origin)
            × (self.new.seat.me.0.full ≡ self.old.seat.me.0.full) }
        ensures sent { self.new.seat.me.0.sent ≡ self.old.seat.me.0.sent ++ item ∷ [] }
    {
        let slot = slot_at(self.tail, self.capacity);
        let None = self.ring.shared.exchange(&mut self.seat, slot, Some(item)) else {
            unreachable!()
        };
        let tail = next_word(self.tail, self.capacity);
        self.ring
            .shared
            .store::<StoresSent>(&mut self.seat, SENT, tail);
        self.tail = tail;
    }

    // Gives back the slot that is out, if there is one.
    fn give_back(&mut self)
        ensures ring { (self.new.seat.table_id ≡ self.old.seat.table_id)
            × (self.new.seat.me.1 ≡ []) }
        ensures sent { (self.new.seat.me.0.puts ≡ true)
            × (self.new.seat.me.0.sent ≡ self.old.seat.me.0.sent) }
    {
        if self.limit != self.tail {
            self.ring.shared.load::<GivesBack>(&mut self.seat, SENT);
            self.limit = self.tail;
        }
    }
}

impl Tx<()> for RingTx {
    ghost state = { λ s. sending_end s.number s.seat.table_id s.seat.me.0 };

    /// Puts an item behind those that were sent. With a refusal the number of stalls rises by one,
    /// which is the ring's own: only a step that found the lane full raises the seat's `full`.
    fn put(&mut self, _need: &mut (), item: Item) -> Result<(), Item>
        requires { MayFollow self.old.seat.me.0.origin self.old.seat.me.0.sent item }
        ensures put { OnOk result (sending_end self.new.number self.new.seat.table_id
            self.new.seat.me.0
            ≡ after_item item (sending_end self.old.number self.old.seat.table_id
            self.old.seat.me.0)) }
        ensures refused { IfErr result (λ back. (back ≡ item)
            × HasStalledOnce
            (sending_end self.old.number self.old.seat.table_id self.old.seat.me.0)
            (sending_end self.new.number self.new.seat.table_id self.new.seat.me.0)) }
        ensures was_full { OnErr result (WasFull self.old.seat.me.0.capacity
            self.old.seat.me.0.sent) }
    {
        if self.tail == self.limit && !self.look() {
            return Err(item);
        }
        self.send(item);
        Ok(())
    }
}

/// The receiving end of a ring lane.
#[derive(Drop)]
pub struct RingRx {
    ring: Arc<Slots, Global>,
    seat: Seat<Option<Item>, View>,
    number: u32,
    capacity: u64,
    head: u64,
    // The word at which no item is known to lie.
    end: u64,
    ghost of_ring: { ((arc_value ring).shared.table_id ≡ seat.table_id)
        × (seat.table_id.words ≡ WORDS) },
    ghost role: { (seat.me.0.takes ≡ true) × (seat.me.1 ≡ receiver_slots seat.me.0) },
    ghost sized: { (capacity ≡ seat.me.0.capacity) × (0 < capacity) × (capacity ≤ MAX_CAPACITY) },
    ghost head_is: { head ≡ word_at capacity (length seat.me.0.taken) },
    ghost end_is: { (end ≡ word_at capacity (length seat.me.0.taken + length seat.me.0.ahead))
        × (length seat.me.0.ahead ≤ capacity) },
}

impl RingRx {
    /// Returns the number of the lane.
    pub fn number(&self) -> u32
        ensures { result ≡ self.now.number }
    {
        self.number
    }

    // Loads how many items were sent. Returns whether one lies on the lane now.
    fn look(&mut self) -> bool
        requires { length self.old.seat.me.0.ahead ≡ 0 }
        ensures end { (self.new.number ≡ self.old.number)
            × (self.new.seat.table_id ≡ self.old.seat.table_id)
            × (self.new.seat.me.0.capacity ≡ self.old.seat.me.0.capacity)
            × (self.new.seat.me.0.origin ≡ self.old.seat.me.0.origin)
            × (self.new.seat.me.0.taken ≡ self.old.seat.me.0.taken) }
        ensures sender { (self.new.seat.me.0.puts ≡ self.old.seat.me.0.puts)
            × (self.new.seat.me.0.sent ≡ self.old.seat.me.0.sent) }
        ensures item { OnTrue result ((0 < length self.new.seat.me.0.ahead)
            × (self.new.seat.me.0.dry ≡ self.old.seat.me.0.dry)) }
        ensures none { OnFalse result ((self.new.seat.me.0.dry ≡ self.old.seat.me.0.dry + 1)
            × (self.old.seat.me.0.puts ≡ true
            → self.old.seat.me.0.sent ≡ self.old.seat.me.0.taken)) }
    {
        let tail = self.ring.shared.load::<LoadsSent>(&mut self.seat, SENT);
        if tail == self.head {
            return false;
        }
        self.end = tail;
        true
    }

    // Takes the item that lies first.
    fn receive(&mut self) -> Option<Item>
        requires { 0 < length self.old.seat.me.0.ahead }
        ensures end { (self.new.number ≡ self.old.number)
            × (self.new.seat.table_id ≡ self.old.seat.table_id)
            × (self.new.seat.me.0.capacity ≡ self.old.seat.me.0.capacity)
            × (self.new.seat.me.0.origin ≡ self.old.seat.me.0.origin)
            × (self.new.seat.me.0.dry ≡ self.old.seat.me.0.dry) }
        ensures sender { (self.new.seat.me.0.puts ≡ self.old.seat.me.0.puts)
            × (self.new.seat.me.0.sent ≡ self.old.seat.me.0.sent) }
        ensures taken { IfSome result (λ item.
            self.new.seat.me.0.taken ≡ self.old.seat.me.0.taken ++ item ∷ []) }
        ensures steady { IsSteady self.new.seat.me.0.origin self.new.seat.me.0.taken }
        ensures was_sent { self.old.seat.me.0.puts ≡ true
            → length self.old.seat.me.0.taken < length self.old.seat.me.0.sent }
        ensures some { IfNone result ⊥ }
    {
        let slot = slot_at(self.head, self.capacity);
        let item = self.ring.shared.exchange(&mut self.seat, slot, None);
        let head = next_word(self.head, self.capacity);
        self.ring
            .shared
            .store::<StoresTaken>(&mut self.seat, TAKEN, head);
        self.head = head;
        item
    }

    // The next item, if there is one. A receiver that the sender joined knows all that was sent.
    fn next(&mut self) -> Option<Item>
        ensures end { (self.new.number ≡ self.old.number)
            × (self.new.seat.table_id ≡ self.old.seat.table_id)
            × (self.new.seat.me.0.capacity ≡ self.old.seat.me.0.capacity)
            × (self.new.seat.me.0.origin ≡ self.old.seat.me.0.origin) }
        ensures sender { (self.new.seat.me.0.puts ≡ self.old.seat.me.0.puts)
            × (self.new.seat.me.0.sent ≡ self.old.seat.me.0.sent) }
        ensures taken { IfSome result (λ item.
            (self.new.seat.me.0.taken ≡ self.old.seat.me.0.taken ++ item ∷ [])
            × (self.new.seat.me.0.dry ≡ self.old.seat.me.0.dry)) }
        ensures steady { IfSome result (λ item.
            IsSteady self.new.seat.me.0.origin self.new.seat.me.0.taken) }
        ensures was_sent { IfSome result (λ item. self.old.seat.me.0.puts ≡ true
            → length self.old.seat.me.0.taken < length self.old.seat.me.0.sent) }
        ensures none { IfNone result ((self.new.seat.me.0.taken ≡ self.old.seat.me.0.taken)
            × (self.new.seat.me.0.dry ≡ self.old.seat.me.0.dry + 1)
            × (self.old.seat.me.0.puts ≡ true
            → self.old.seat.me.0.sent ≡ self.old.seat.me.0.taken)) }
    {
        if self.head == self.end && !self.look() {
            return None;
        }
        self.receive()
    }

    // Joins the sender's seat: the receiver then knows what was sent.
    fn join(&mut self, sender: Seat<Option<Item>, View>)
        requires ring { (sender.table_id ≡ self.old.seat.table_id) × (sender.me.1 ≡ []) }
        requires role { sender.me.0.puts ≡ true }
        ensures puts { self.new.seat.me.0.puts ≡ true }
        ensures lists { (self.new.seat.me.0.sent ≡ sender.me.0.sent)
            × (self.new.seat.me.0.taken ≡ self.old.seat.me.0.taken) }
    {
        self.ring
            .shared
            .join_seat::<JoinSeats>(&mut self.seat, sender);
    }
}

impl Rx<()> for RingRx {
    ghost state = { λ s. receiving_end s.number s.seat.table_id s.seat.me.0 };

    /// Takes the next item. With None the number of stalls rises by one, which is the ring's own:
    /// only a step that found the lane empty raises the seat's `dry`.
    fn take(&mut self, _need: &mut ()) -> Option<Item>
        ensures taken { IfSome result (λ item.
            receiving_end self.new.number self.new.seat.table_id self.new.seat.me.0
            ≡ after_item item (receiving_end self.old.number self.old.seat.table_id
            self.old.seat.me.0)) }
        ensures steady { IfSome result (λ item.
            IsSteady self.new.seat.me.0.origin self.new.seat.me.0.taken) }
        ensures none { IfNone result (HasStalledOnce
            (receiving_end self.old.number self.old.seat.table_id self.old.seat.me.0)
            (receiving_end self.new.number self.new.seat.table_id self.new.seat.me.0)) }
    {
        self.next()
    }
}

// The items on a ring whose seats are joined, in order.
fn drain(alloc: Global, mut rx: RingRx) -> Result<Left, NoMemory>
    requires { rx.seat.me.0.puts ≡ true }
    ensures { IfOk result (λ left. rx.seat.me.0.sent ≡ rx.seat.me.0.taken ++ left) }
{
    let mut left = Vec::new(alloc);
    loop {
        left.reserve(1)?;
        match rx.next() {
            Some(item) => left.push_reserved(item),
            None => return Ok(Left::from_vec(left)),
        }
    }
}

/// Lanes over rings, whose calls wait for nobody.
#[derive(Clone, Copy, Drop)]
pub struct RingLanes;

impl Lanes for RingLanes {
    type Need = ();

    type Tx = RingTx;

    type Rx = RingRx;

    fn need(&self) {}

    fn make(
        &self,
        alloc: Global,
        number: u32,
        cap: u32,
        origin: Origin,
    ) -> Result<(RingTx, RingRx), NoMemory> {
        let charter = Charter {
            capacity: cap,
            origin,
        };
        let (ring, mut seat) = Slots::vacant(alloc, &[0; WORDS], cap as usize, &charter)?;
        let other = ring.shared.split_seat::<SplitSeats>(&mut seat);
        let ring = Arc::new(alloc, ring)?;
        let again = Arc::try_clone(&ring)?;
        let capacity = u64::from(cap);
        let tx = RingTx {
            ring,
            seat,
            number,
            capacity,
            tail: 0,
            limit: 0,
        };
        let rx = RingRx {
            ring: again,
            seat: other,
            number,
            capacity,
            head: 0,
            end: 0,
        };
        Ok((tx, rx))
    }

    fn settle(
        &self,
        alloc: Global,
        _need: &mut (),
        mut tx: RingTx,
        mut rx: RingRx,
    ) -> Result<Left, NoMemory> {
        tx.give_back();
        let RingTx {
            ring: _,
            seat: sender,
            number: _,
            capacity: _,
            tail: _,
            limit: _,
        } = tx;
        rx.join(sender);
        drain(alloc, rx)
    }
}
