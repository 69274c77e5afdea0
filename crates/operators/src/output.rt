ghost use Rattle.std.specs.Prelude.{◌≡◌, IfOk};
ghost use Rattle.operators.specs.Sent.{visited};
ghost use Rattle.operators.specs.Changing.{changed};

use std::alloc::Global;
use tuple_trace::{Births, Fields, Items, NoMemory, Tuple, Value, Visit, Visits};

/// A tuple that a node puts out, and the port by which it leaves.
#[derive(Debug, Drop)]
pub struct Output {
    pub port: u32,
    pub tuple: Tuple,
}

/// What a node puts out, in order.
pub type Outs = Items<Output>;

/// A copy of the tuple with this birth, these fields and one more visit.
pub(crate) fn remade(
    tuple: &Tuple,
    visit: Visit,
    birth: Births,
    fields: Fields,
) -> Result<Tuple, NoMemory>
    ensures { IfOk result
        (λ made. made ≡ visited visit (record tuple.now { birth = birth; fields = fields })) }
{
    Ok(Tuple {
        row: tuple.row,
        birth,
        issued: tuple.issued,
        fields,
        trace: tuple.trace.with(visit)?,
    })
}

/// A tuple on its way out of a node, whose fields are its own and may be changed.
#[derive(Drop)]
pub(crate) struct Changing {
    row: u64,
    birth: Births,
    issued: u64,
    pub(crate) fields: Items<Value>,
    trace: Visits,
}

impl Changing {
    /// A copy of the tuple with one more visit.
    pub(crate) fn copy_of(alloc: Global, tuple: &Tuple, visit: Visit) -> Result<Changing, NoMemory>
        ensures { IfOk result (λ made. changed made ≡ visited visit tuple.now) }
    {
        Ok(Changing {
            row: tuple.row,
            birth: tuple.birth.clone()?,
            issued: tuple.issued,
            fields: Items::from_vec(Vec::from_clones(alloc, tuple.fields.as_slice())?),
            trace: tuple.trace.with(visit)?,
        })
    }

    /// The tuple as it leaves. Takes no memory.
    pub(crate) fn into_tuple(self) -> Tuple
        ensures { result ≡ changed self }
    {
        Tuple {
            row: self.row,
            birth: self.birth,
            issued: self.issued,
            fields: Fields::own(self.fields),
            trace: self.trace,
        }
    }
}
