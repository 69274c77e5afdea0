ghost use Rattle.std.specs.Prelude.{◌≡◌};

use atomic_table::Seat;

/// A law: no two seats of one table have one number. Both stay as they are.
pub fn are_apart<S, V>(one: &mut Seat<S, V>, other: &mut Seat<S, V>)
    ensures { (one.new ≡ one.old) × (other.new ≡ other.old)
        × (one.old.table_id ≡ other.old.table_id → ¬ (other.old.id ≡ one.old.id)) }
{}
