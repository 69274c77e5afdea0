ghost use Rattle.std.specs.Prelude.{◌≡◌, ◌<◌, [], IfOk, OnErr, OnOk, length, slice_set};

use crate::{Items, NoMemory, Value};
use std::alloc::Global;
use std::marker::Model;
use std::sync::ArcSlice;

/// The columns of a tuple, in the job's order. Contracts see the list of their values.
///
/// A tuple that is changed has values of its own. Values that no tuple changed are shared: all
/// copies of them lie in one piece of memory.
#[derive(Clone, Debug, Drop)]
pub struct Fields {
    values: Held,
}

/// Who holds the values of a tuple.
#[derive(Clone, Debug, Drop)]
enum Held {
    Own(Items<Value>),
    Shared(ArcSlice<Value>),
}

impl Model for Fields {
    ghost use Rattle.std.specs.Prelude.{List};
    ghost use Rattle.tuple_trace.specs.Shared.{values_held};
    ghost use Rattle.tuple_trace.specs.declared.value.Value.{Value as ValueIs};

    ghost Value = { List ValueIs };

    ghost view = { λ a. values_held a.values };
}

impl Fields {
    /// No fields. Takes no memory.
    pub fn new(alloc: Global) -> Self
        ensures { result ≡ [] }
    {
        Fields::own(Items::new(alloc))
    }

    /// These values. Each copy of them will have its own memory. Takes no memory.
    pub fn own(values: Items<Value>) -> Self
        ensures { result ≡ values }
    {
        Fields {
            values: Held::Own(values),
        }
    }

    /// These values, which all copies will share.
    pub fn shared(values: Items<Value>) -> Result<Self, NoMemory>
        ensures { IfOk result (λ made. made ≡ values) }
    {
        Ok(Fields {
            values: Held::Shared(ArcSlice::from_vec(values.into_vec())?),
        })
    }

    /// All values in order.
    pub fn as_slice(&self) -> &[Value]
        ensures { result.now ≡ self.now }
    {
        match &self.values {
            Held::Own(values) => values.as_slice(),
            Held::Shared(values) => values.as_slice(),
        }
    }

    /// How many fields there are.
    pub fn len(&self) -> usize
        ensures { result ≡ length self.now }
    {
        self.as_slice().len()
    }

    /// Puts a value in the place of another. Takes memory if the values were shared, and then they
    /// are no longer. After [`NoMemory`] the values are as before.
    pub fn set(&mut self, alloc: Global, place: usize, value: Value) -> Result<(), NoMemory>
        requires { place < length self.old }
        ensures ok { OnOk result (self.new ≡ slice_set self.old place value) }
        ensures err { OnErr result (self.new ≡ self.old) }
    {
        if let Held::Own(values) = &mut self.values {
            values.set(place, value);
            return Ok(());
        }
        let mut values = Items::from_vec(Vec::from_clones(alloc, self.as_slice())?);
        values.set(place, value);
        self.values = Held::Own(values);
        Ok(())
    }
}
