ghost use Rattle.std.specs.Prelude.{◌≡◌, ℕ, ◌<◌, ◌≤◌, ◌↔◌, slice_index};
ghost use Rattle.flow_dag.specs.Masks.{Has};
ghost use Rattle.flow_dag.specs.Rows.{RowHas, GainsRow};
ghost use Rattle.flow_dag.specs.Paths.{Reaches};

use crate::{MAX_NODES, mask};

/// The transitive closure of the rows of `n` nodes: row `a` of the result has each node to which a
/// path of two or more nodes leads from `a`.
///
/// This is Warshall's algorithm (1962) with one word for a row, so it takes `n * n` steps on words.
pub fn closure(n: u32, child: &[u64; MAX_NODES]) -> [u64; MAX_NODES]
    requires nodes { n ≤ MAX_NODES }
    requires inside { (a b : ℕ) → RowHas child.now a b → (a < n) × (b < n) }
    ensures { (a b : ℕ) → RowHas result a b ↔ Reaches (RowHas child.now) a b }
{
    let mut below = *child;
    for k in 0..n {
        pass_through(n, &mut below, k);
    }
    below
}

/// Adds the row of `k` to each row, of the first `n`, that has `k`.
fn pass_through(n: u32, rows: &mut [u64; MAX_NODES], k: u32)
    requires nodes { n ≤ MAX_NODES }
    requires inside { k < n }
    ensures gains { (a b : ℕ) → a < n → GainsRow rows.old k rows.new a b }
    ensures others { (a : ℕ) → n ≤ a → slice_index rows.new a ≡ slice_index rows.old a }
{
    let through = rows[k as usize];
    for a in 0..n as usize {
        if mask::has_bit(rows[a], k) {
            rows[a] |= through;
        }
    }
}

/// The rows of the same pairs turned round: row `a` of the result has `b` where row `b` of the
/// given ones has `a`.
pub fn transposed(rows: &[u64; MAX_NODES]) -> [u64; MAX_NODES]
    ensures { (a b : ℕ) → RowHas result a b ↔ RowHas rows.now b a }
{
    let mut transposed = [0u64; MAX_NODES];
    for a in 0..MAX_NODES as u32 {
        transposed[a as usize] = column(rows, a);
    }
    transposed
}

/// The nodes whose rows have `node`.
fn column(rows: &[u64; MAX_NODES], node: u32) -> u64
    requires { node < MAX_NODES }
    ensures { (a : ℕ) → Has result a ↔ RowHas rows.now a node }
{
    let mut column = 0u64;
    for (a, row) in rows.iter().enumerate() {
        if mask::has_bit(*row, node) {
            column = mask::with_bit(column, a as u32);
        }
    }
    column
}
