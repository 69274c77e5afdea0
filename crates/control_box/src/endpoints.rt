ghost use Rattle.std.specs.Prelude.{◌≡◌, ◌+◌, ◌<◌, ◌≤◌, ◌↔◌, ℕ, [], ◌∷◌, ◌++◌, All, IfOk, IsTrue};
ghost use Rattle.std.specs.Bool.{OnTrue};
ghost use Rattle.control_box.specs.Endpoints.{HasShownReady};

use crate::rule::{
    LoadsPosted, LoadsTurned, POSTED, Sides, StoresPosted, StoresTurned, TURNED, View, Words,
};
use atomic_table::Seat;
use std::alloc::{AllocError, Global};
use std::marker::Model;
use std::sync::Arc;

/// The feeder's end of a box. Contracts see its last post, and the list of the values of turned
/// that [`Poster::ready`] loaded.
#[derive(Drop)]
pub struct Poster {
    words: Arc<Words, Global>,
    seat: Seat<(), View>,
}

impl Model for Poster {
    ghost use Rattle.std.specs.Prelude.{◌≡◌, true, []};
    ghost use Rattle.std.specs.Arc.{arc_value};
    ghost use Rattle.control_box.specs.Endpoints.{PosterIs};

    ghost Value = { PosterIs };

    ghost view = { λ p. record {
      within = p.seat.table_id;
      posted = p.seat.me.0.posted;
      loads = p.seat.me.0.loads;
    } };

    ghost invariant = { λ p. ((arc_value p.words).shared.table_id ≡ p.seat.table_id)
        × (p.seat.table_id.words ≡ 2) × (p.seat.me.1 ≡ []) × (p.seat.me.0.may_post ≡ true) };
}

/// The worker's end of a box. Contracts see its last acknowledgement, and the list of the numbers
/// that [`Owner::poll`] answered.
#[derive(Drop)]
pub struct Owner {
    words: Arc<Words, Global>,
    seat: Seat<(), View>,
    turned: u64,
}

impl Model for Owner {
    ghost use Rattle.std.specs.Prelude.{◌≡◌, true, []};
    ghost use Rattle.std.specs.Arc.{arc_value};
    ghost use Rattle.control_box.specs.Endpoints.{OwnerIs};

    ghost Value = { OwnerIs };

    ghost view = { λ p. record {
      within = p.seat.table_id;
      turned = p.seat.me.0.turned;
      polls = p.seat.me.0.polls;
    } };

    ghost invariant = { λ p. ((arc_value p.words).shared.table_id ≡ p.seat.table_id)
        × (p.seat.table_id.words ≡ 2) × (p.seat.me.1 ≡ []) × (p.seat.me.0.may_turn ≡ true)
        × (p.turned ≡ p.seat.me.0.turned) };
}

/// The two ends of a new box, in which both numbers are 0.
pub fn make_box(alloc: Global) -> Result<(Poster, Owner), AllocError>
    ensures poster { IfOk result (λ (poster, owner). (poster.posted ≡ 0) × (poster.loads ≡ [])) }
    ensures owner { IfOk result (λ (poster, owner). (owner.turned ≡ 0) × (owner.polls ≡ [])) }
    ensures same { IfOk result (λ (poster, owner). poster.within ≡ owner.within) }
{
    let (words, mut seat) = Words::of_words(alloc, &[0, 0], &())?;
    let other = words.shared.split_seat::<Sides>(&mut seat);
    let words = Arc::new(alloc, words)?;
    let again = Arc::try_clone(&words)?;
    Ok((
        Poster { words, seat },
        Owner {
            words: again,
            seat: other,
            turned: 0,
        },
    ))
}

impl Poster {
    /// Whether the owner has turned every due before `k`, which is 1 or more: whether turned is at
    /// least `k - 1` at this load.
    pub fn ready(&mut self, k: u64) -> bool
        requires { 1 ≤ k }
        ensures same { (self.new.within ≡ self.old.within) × (self.new.posted ≡ self.old.posted) }
        // What it loaded is turned at this moment, which never falls, and is at most one behind
        // posted.
        ensures load { (turned : ℕ) × (self.new.loads ≡ self.old.loads ++ turned ∷ [])
            × All (λ load. load ≤ turned) self.old.loads
            × (self.old.posted ≤ turned + 1) × (IsTrue result ↔ (k ≤ turned + 1)) }
        ensures ready { OnTrue result (HasShownReady k self.new.loads) }
    {
        let turned = self
            .words
            .shared
            .load::<LoadsTurned>(&mut self.seat, TURNED);
        turned >= k - 1
    }

    /// Posts the due with this number, for which [`Poster::ready`] has answered true.
    pub fn post(&mut self, k: u64)
        requires ready { HasShownReady k self.old.loads }
        requires above { self.old.posted < k }
        ensures same { (self.new.within ≡ self.old.within) × (self.new.loads ≡ self.old.loads) }
        ensures posted { self.new.posted ≡ k }
    {
        self.words
            .shared
            .store::<StoresPosted>(&mut self.seat, POSTED, k);
    }
}

impl Owner {
    /// Returns the number of the last due that was acknowledged, 0 if there was none.
    pub fn last_turned(&self) -> u64
        ensures { result ≡ self.now.turned }
    {
        self.turned
    }

    /// What is posted at this load. It is at most one above what is turned, and never falls.
    pub fn poll(&mut self) -> u64
        ensures same { (self.new.within ≡ self.old.within) × (self.new.turned ≡ self.old.turned) }
        ensures poll { self.new.polls ≡ self.old.polls ++ result ∷ [] }
        ensures rises { All (λ poll. poll ≤ result) self.old.polls }
        ensures near { result ≤ self.old.turned + 1 }
    {
        self.words
            .shared
            .load::<LoadsPosted>(&mut self.seat, POSTED)
    }

    /// Acknowledges the next due, which has this number.
    pub fn turned(&mut self, k: u64)
        requires { k ≡ self.old.turned + 1 }
        ensures same { (self.new.within ≡ self.old.within) × (self.new.polls ≡ self.old.polls) }
        ensures turned { self.new.turned ≡ k }
    {
        self.words
            .shared
            .store::<StoresTurned>(&mut self.seat, TURNED, k);
        self.turned = k;
    }
}
