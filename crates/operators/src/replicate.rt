// Replicates. Out of memory, `out` is as before.
ghost use Rattle.std.specs.Prelude.{ℕ, ◌≡◌, ◌++◌, IfOk, OnOk, OnErr, length, map, take};
ghost use Rattle.operators.specs.Sent.{born as born_of, sent, visited};

use crate::output::{Output, Outs, remade};
use std::alloc::Global;
use tuple_trace::{NoMemory, Tuple, Visit};

/// Sends a copy of the tuple to each port of the node, in the order of `ports`. The port is the
/// copy's last birth. No column is read or written.
pub fn replicate(
    alloc: Global,
    ports: &[u32],
    visit: Visit,
    tuple: &Tuple,
    out: &mut Outs,
) -> Result<(), NoMemory>
    ensures ok { let copy = λ (port : ℕ). sent visit port (born_of port tuple.now) in
        OnOk result (out.new ≡ out.old ++ map copy ports.now) }
    ensures err { OnErr result (out.new ≡ out.old) }
{
    let before = out.len();
    if send_copies(alloc, ports, visit, tuple, out).is_err() {
        out.truncate(before);
        return Err(NoMemory);
    }
    Ok(())
}

fn send_copies(
    alloc: Global,
    ports: &[u32],
    visit: Visit,
    tuple: &Tuple,
    out: &mut Outs,
) -> Result<(), NoMemory>
    ensures ok { let copy = λ (port : ℕ). sent visit port (born_of port tuple.now) in
        OnOk result (out.new ≡ out.old ++ map copy ports.now) }
    ensures err { OnErr result (take (length out.old) out.new ≡ out.old) }
{
    for port in ports {
        let tuple = copy_of(alloc, visit, *port, tuple)?;
        out.push(Output { port: *port, tuple })?;
    }
    Ok(())
}

// The tuple with a port as its last birth.
fn copy_of(alloc: Global, visit: Visit, port: u32, tuple: &Tuple) -> Result<Tuple, NoMemory>
    ensures { IfOk result (λ made. made ≡ visited visit (born_of port tuple.now)) }
{
    let birth = tuple.birth.with(alloc, port)?;
    remade(tuple, visit, birth, tuple.fields.clone()?)
}
