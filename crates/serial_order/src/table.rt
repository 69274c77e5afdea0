ghost use Rattle.std.specs.Prelude.{◌≡◌, ℕ, IfOk, slice_get};
ghost use Rattle.flow_model.specs.Requests.{func_after as func_after_of};
ghost use Rattle.flow_model.specs.Serial.{funcs_after as table_at_of};
ghost use Rattle.flow_model.specs.Setup.{setup_view};

use flow_model::Setup;
use jobs::Func;
use std::alloc::Global;
use tuple_trace::{Items, NoMemory};

/// The functions of all nodes, in the order of the nodes.
pub type FuncTable = Items<Func>;

/// The functions after the first `k` accepted requests: each node has the function of the last of
/// these that changes it, or else the job's. The only error is out of memory.
pub fn table_at(alloc: Global, setup: &Setup, k: u64) -> Result<FuncTable, NoMemory>
    ensures { IfOk result (λ table. (node : ℕ) →
        slice_get table node ≡ table_at_of (setup_view setup.now) k node) }
{
    let mut table = FuncTable::new(alloc);
    for (node, def) in setup.job.nodes.as_slice().iter().enumerate() {
        table.push(copy_of(func_after(setup, node as u32, &def.func, k))?)?;
    }
    Ok(table)
}

fn copy_of(func: &Func) -> Result<Func, NoMemory>
    ensures { IfOk result (λ copy. copy ≡ func.now) }
{
    Ok(func.clone()?)
}

// The function of a node after the first requests, if the job gives it this one.
fn func_after<'a>(setup: &'a Setup, node: u32, func: &'a Func, k: u64) -> &'a Func
    ensures { result.now ≡ func_after_of (setup_view setup.now) node func.now k }
{
    let mut latest = func;
    for place in 0..k {
        if let Some(change) = setup.change_of(place + 1, node) {
            latest = &change.func;
        }
    }
    latest
}
