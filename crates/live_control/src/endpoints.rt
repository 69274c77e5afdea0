ghost use Rattle.std.specs.Prelude.{◌≡◌, ◌+◌, ◌<◌, ◌≤◌, [], ◌∷◌, ◌++◌, All, IfOk};
ghost use Rattle.live_control.specs.Line.{last_load};

use crate::rule::{LoadsReleased, Meets, RELEASED, Sides, StoresReleased, View, Words};
use atomic_table::Seat;
use std::alloc::Global;
use std::marker::Model;
use std::sync::Arc;
use tuple_trace::NoMemory;
use versions::MAX_REQUESTS;

/// The reader's endpoint of a line. Contracts see how many releases it told.
#[derive(Drop)]
pub struct Teller {
    words: Arc<Words, Global>,
    seat: Seat<(), View>,
    told: u64,
}

impl Model for Teller {
    ghost use Rattle.std.specs.Prelude.{◌≡◌, true, []};
    ghost use Rattle.std.specs.Arc.{arc_value};
    ghost use Rattle.live_control.specs.Line.{TellerIs};

    ghost Value = { TellerIs };

    ghost view = { λ t. record { line = t.seat.table_id; told = t.seat.me.0.told } };

    ghost invariant = { λ t. ((arc_value t.words).shared.table_id ≡ t.seat.table_id)
        × (t.seat.table_id.words ≡ 1) × (t.seat.me.1 ≡ []) × (t.seat.me.0.may_tell ≡ true)
        × (t.told ≡ t.seat.me.0.told) };
}

/// The feeder's endpoint of a line. Contracts see the numbers of releases that it loaded.
#[derive(Drop)]
pub struct Inbox {
    words: Arc<Words, Global>,
    seat: Seat<(), View>,
    last: u64,
}

impl Model for Inbox {
    ghost use Rattle.std.specs.Prelude.{◌≡◌, true, []};
    ghost use Rattle.std.specs.Arc.{arc_value};
    ghost use Rattle.live_control.specs.Line.{InboxIs, last_load};

    ghost Value = { InboxIs };

    ghost view = { λ b. record { line = b.seat.table_id; loads = b.seat.me.0.loads } };

    ghost invariant = { λ b. ((arc_value b.words).shared.table_id ≡ b.seat.table_id)
        × (b.seat.table_id.words ≡ 1) × (b.seat.me.1 ≡ []) × (b.seat.me.0.may_hear ≡ true)
        × (b.last ≡ last_load b.seat.me.0.loads) };
}

/// The two endpoints of a new line, over which nothing is told. The one error is out of memory.
pub fn line(alloc: Global) -> Result<(Teller, Inbox), NoMemory>
    ensures told { IfOk result (λ (teller, inbox). teller.told ≡ 0) }
    ensures loads { IfOk result (λ (teller, inbox). inbox.loads ≡ []) }
    ensures same { IfOk result (λ (teller, inbox). teller.line ≡ inbox.line) }
{
    let (words, mut seat) = Words::of_words(alloc, &[0], &())?;
    let other = words.shared.split_seat::<Sides>(&mut seat);
    let words = Arc::new(alloc, words)?;
    let again = Arc::try_clone(&words)?;
    Ok((
        Teller {
            words,
            seat,
            told: 0,
        },
        Inbox {
            words: again,
            seat: other,
            last: 0,
        },
    ))
}

impl Teller {
    /// Tells one more release. It waits for nobody and takes no memory.
    pub fn tell(&mut self)
        requires { self.old.told < MAX_REQUESTS }
        ensures { self.new ≡ record self.old { told = self.old.told + 1 } }
    {
        let told = self.told + 1;
        self.words
            .shared
            .store::<StoresReleased>(&mut self.seat, RELEASED, told);
        self.told = told;
    }
}

impl Inbox {
    /// How many releases are told at this load, which never falls. It waits for nobody and takes no
    /// memory.
    pub fn heard(&mut self) -> u64
        ensures loads { self.new ≡ record self.old { loads = self.old.loads ++ result ∷ [] } }
        ensures rises { All (λ load. load ≤ result) self.old.loads }
    {
        let released = self
            .words
            .shared
            .load::<LoadsReleased>(&mut self.seat, RELEASED);
        self.last = released;
        released
    }

    /// What was loaded last, 0 if nothing was.
    pub fn last_heard(&self) -> u64
        ensures { result ≡ last_load self.now.loads }
    {
        self.last
    }
}

/// Ends a line. Returns how many releases were told, and how many of them the last load saw, 0 for
/// none.
pub fn meet(teller: Teller, inbox: Inbox) -> (u64, u64)
    requires one_line { teller.line ≡ inbox.line }
    ensures told { result.0 ≡ teller.told }
    ensures last { result.1 ≡ last_load inbox.loads }
    ensures reached { result.1 ≤ result.0 }
{
    let Teller {
        words,
        mut seat,
        told: _,
    } = teller;
    let Inbox {
        words: _,
        seat: other,
        last,
    } = inbox;
    words.shared.join_seat::<Meets>(&mut seat, other);
    let released = words.shared.load::<LoadsReleased>(&mut seat, RELEASED);
    (released, last)
}
