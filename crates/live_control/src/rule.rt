// The word of a line, what each of its seats knows, and the steps.
use atomic_table::{Join, Play, Split, Table, TableRule};
use std::alloc::Global;
use std::collections::LinkedList;

pub const RELEASED: usize = 0;

/// What a seat may do, and what it knows. No value of it is made.
pub struct View {
    pub may_tell: bool,
    pub may_hear: bool,
    /// What it stored last in released.
    pub told: u64,
    /// What it loaded from released.
    pub loads: LinkedList<u64>,
}

pub type Words = Table<(), View, (), ReleasedIsTold, Global>;

pub struct ReleasedIsTold;

impl TableRule<(), View, ()> for ReleasedIsTold {
    ghost use Rattle.live_control.specs.Rule.{fresh, IsLine};

    ghost holds = { λ _. IsLine };

    ghost first = { λ _. fresh };
}

pub struct Sides;

impl Split<View> for Sides {
    ghost use Rattle.live_control.specs.Rule.{inbox_side, teller_side};

    ghost left = { teller_side };

    ghost right = { inbox_side };
}

pub struct Meets;

impl Join<View> for Meets {
    ghost use Rattle.live_control.specs.Rule.{met, spent as spent_view};

    ghost both = { met };

    ghost spent = { spent_view };
}

pub struct StoresReleased;

impl Play<(), View> for StoresReleased {
    ghost use Rattle.live_control.specs.Rule.{StoredReleased};

    ghost then = { λ st m n r. StoredReleased m n r };
}

pub struct LoadsReleased;

impl Play<(), View> for LoadsReleased {
    ghost use Rattle.live_control.specs.Rule.{LoadedReleased};

    ghost then = { λ st m n r. LoadedReleased m n r };
}
