// The two words of a box, what each of its seats knows, and the steps.
use atomic_table::{Play, Split, Table, TableRule};
use std::alloc::Global;
use std::collections::LinkedList;

pub const POSTED: usize = 0;

pub const TURNED: usize = 1;

/// What a seat may do, and what it knows. No value of it is made.
pub struct View {
    pub may_post: bool,
    pub may_turn: bool,
    /// What it stored last in posted.
    pub posted: u64,
    /// What it loaded from turned.
    pub loads: LinkedList<u64>,
    /// What it stored last in turned.
    pub turned: u64,
    /// What it loaded from posted.
    pub polls: LinkedList<u64>,
}

pub type Words = Table<(), View, (), AtMostOneAhead, Global>;

pub struct AtMostOneAhead;

impl TableRule<(), View, ()> for AtMostOneAhead {
    ghost use Rattle.control_box.specs.Rule.{fresh, IsBox};

    ghost holds = { λ _. IsBox };

    ghost first = { λ _. fresh };
}

pub struct Sides;

impl Split<View> for Sides {
    ghost use Rattle.control_box.specs.Rule.{owner_side, poster_side};

    ghost left = { poster_side };

    ghost right = { owner_side };
}

pub struct LoadsTurned;

impl Play<(), View> for LoadsTurned {
    ghost use Rattle.control_box.specs.Rule.{LoadedTurned};

    ghost then = { λ st m n r. LoadedTurned m n r };
}

pub struct StoresPosted;

impl Play<(), View> for StoresPosted {
    ghost use Rattle.control_box.specs.Rule.{StoredPosted};

    ghost then = { λ st m n r. StoredPosted m n r };
}

pub struct LoadsPosted;

impl Play<(), View> for LoadsPosted {
    ghost use Rattle.control_box.specs.Rule.{LoadedPosted};

    ghost then = { λ st m n r. LoadedPosted m n r };
}

pub struct StoresTurned;

impl Play<(), View> for StoresTurned {
    ghost use Rattle.control_box.specs.Rule.{StoredTurned};

    ghost then = { λ st m n r. StoredTurned m n r };
}
