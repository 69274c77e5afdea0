ghost use Rattle.std.specs.Prelude.{◌≢◌, ℕ, ◌<◌, ◌^◌, ◌↔◌, IsTrue};
ghost use Rattle.flow_dag.specs.Masks.{Has};

use crate::{MAX_EDGES, MAX_NODES};

/// Whether bit `i` of the mask is set.
pub fn has_bit(mask: u64, i: u32) -> bool
    requires { i < MAX_NODES }
    ensures { IsTrue result ↔ Has mask i }
{
    mask >> i & 1 == 1
}

/// The mask with bit `i` set too.
pub fn with_bit(mask: u64, i: u32) -> u64
    requires { i < MAX_NODES }
    ensures set { Has result i }
    ensures others { (k : ℕ) → k ≢ i → (Has result k ↔ Has mask k) }
    ensures some { 0 < result }
    ensures below { (n : ℕ) → i < n → mask < 2 ^ n → result < 2 ^ n }
{
    mask | 1 << i
}

/// Whether bit `i` of a mask of edges is set.
pub fn has_wide_bit(mask: u128, i: u32) -> bool
    requires { i < MAX_EDGES }
    ensures { IsTrue result ↔ Has mask i }
{
    mask >> i & 1 == 1
}

/// The mask of edges with bit `i` set too.
pub fn with_wide_bit(mask: u128, i: u32) -> u128
    requires { i < MAX_EDGES }
    ensures set { Has result i }
    ensures others { (k : ℕ) → k ≢ i → (Has result k ↔ Has mask k) }
    ensures some { 0 < result }
    ensures below { (n : ℕ) → i < n → mask < 2 ^ n → result < 2 ^ n }
{
    mask | 1 << i
}
