ghost use Rattle.std.specs.Prelude.{◌≡◌, ◌++◌, ◌∷◌, [], IfOk, length};

use crate::NoMemory;
use std::alloc::Global;
use std::marker::Model;
use std::sync::ArcSlice;

/// The most births that lie in a tuple itself.
const FEW: usize = 5;

/// The births of a tuple: at each split or copy on its way, which of the outputs it was. Contracts
/// see the list of these numbers.
///
/// Up to five lie in the value itself. More don't change once they are made, so all copies of them
/// share one piece of memory.
#[derive(Clone, Debug, Drop)]
pub struct Births {
    place: Place,
}

/// Where the numbers of births lie.
#[derive(Clone, Debug, Drop)]
enum Place {
    Here { count: u8, numbers: [u32; FEW] },
    There(ArcSlice<u32>),
}

impl Model for Births {
    ghost use Rattle.std.specs.Prelude.{List, ℕ};
    ghost use Rattle.tuple_trace.specs.Short.{births_at};

    ghost Value = { List ℕ };

    ghost view = { λ a. births_at a.place };
}

impl Births {
    /// No births. Takes no memory.
    pub fn new(_alloc: Global) -> Self
        ensures { result ≡ [] }
    {
        Births {
            place: Place::Here {
                count: 0,
                numbers: [0; FEW],
            },
        }
    }

    /// Births with these numbers.
    pub fn from_slice(alloc: Global, births: &[u32]) -> Result<Self, NoMemory>
        ensures { IfOk result (λ made. made ≡ births.now) }
    {
        if births.len() > FEW {
            let place = Place::There(ArcSlice::from_slice(alloc, births)?);
            return Ok(Births { place });
        }
        let mut numbers = [0u32; FEW];
        numbers[..births.len()].copy_from_slice(births);
        let place = Place::Here {
            count: births.len() as u8,
            numbers,
        };
        Ok(Births { place })
    }

    /// All births in order.
    pub fn as_slice(&self) -> &[u32]
        ensures { result.now ≡ self.now }
    {
        match &self.place {
            Place::Here { count, numbers } => match numbers.get(..*count as usize) {
                Some(births) => births,
                None => numbers,
            },
            Place::There(births) => births.as_slice(),
        }
    }

    /// How many births there are.
    pub fn len(&self) -> usize
        ensures { result ≡ length self.now }
    {
        self.as_slice().len()
    }

    /// The births with one more behind them.
    pub fn with(&self, alloc: Global, index: u32) -> Result<Births, NoMemory>
        ensures { IfOk result (λ made. made ≡ self.now ++ index ∷ []) }
    {
        let seen = self.as_slice();
        if seen.len() < FEW {
            let mut numbers = [0u32; FEW];
            numbers[..seen.len()].copy_from_slice(seen);
            numbers[seen.len()] = index;
            let place = Place::Here {
                count: seen.len() as u8 + 1,
                numbers,
            };
            return Ok(Births { place });
        }
        let mut births = Vec::with_capacity(alloc, seen.len() + 1)?;
        births.extend_from_slice(seen)?;
        births.push(index)?;
        let place = Place::There(ArcSlice::from_vec(births)?);
        Ok(Births { place })
    }
}
