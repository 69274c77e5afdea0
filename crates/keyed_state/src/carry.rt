/// What becomes of a node's counters where its function changes.
#[derive(Clone, Copy, Debug, PartialEq, Eq)]
pub enum Carry {
    /// They stay.
    Keep,
    /// They are forgotten, so each counts from 0 again.
    Reset,
    /// Each is multiplied by the first number and divided by the second, rounded down.
    Scale(i64, i64),
    /// Those below the number are forgotten.
    DropBelow(i64),
}
