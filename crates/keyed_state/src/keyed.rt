ghost use Rattle.std.specs.Prelude.{◌≡◌, IfOk, OnErr, OnOk};
ghost use Rattle.std.specs.FinMap as finite;
ghost use Rattle.keyed_state.specs.Counts.{raised, carried, CanCarry};

use crate::number::total;
use crate::{Carry, TextEntries, TextMap};
use std::alloc::Global;
use std::marker::Model;
use tuple_trace::{NoMemory, Txt};

/// The counters of a node: a count for each text. A look-up is logarithmic.
#[derive(Debug, Drop)]
pub struct Keyed {
    counts: TextMap<i64>,
}

impl Model for Keyed {
    ghost use Rattle.keyed_state.specs.Counts.{Counts, counts_code};

    ghost Value = { Counts };

    ghost coded = { counts_code };

    ghost view = { λ k. k.counts };
}

impl Keyed {
    /// No counters. Takes no memory.
    pub fn new(alloc: Global) -> Keyed
        ensures { result ≡ finite.empty }
    {
        Keyed {
            counts: TextMap::new(alloc),
        }
    }

    /// The count of a text. None where the text has none.
    pub fn get(&self, key: &Txt) -> Option<i64>
        ensures { result ≡ finite.get self.now key.now }
    {
        self.counts.get(key.as_slice()).copied()
    }

    /// All counters, in the order of their texts by bytes.
    pub fn iter(&self) -> TextEntries<'_, i64>
        ensures { result ≡ finite.entries self.now }
    {
        self.counts.iter()
    }

    /// Adds to the count of a text, which is 0 where it has none, and answers the sum, cut to the
    /// range of an `i64`.
    ///
    /// Takes memory only where the text is new. After [`NoMemory`] the counters are as before.
    pub fn bump(&mut self, key: &Txt, by: i64) -> Result<i64, NoMemory>
        ensures sum { IfOk result (λ sum. sum ≡ raised self.old key.now by) }
        ensures ok { IfOk result (λ sum. self.new ≡ finite.insert self.old key.now sum) }
        ensures err { OnErr result (self.new ≡ self.old) }
    {
        self.add(key.as_slice(), by)
    }

    /// The same for a text that is at hand as a slice.
    pub fn add(&mut self, key: &[u8], by: i64) -> Result<i64, NoMemory>
        ensures sum { IfOk result (λ sum. sum ≡ raised self.old key.now by) }
        ensures ok { IfOk result (λ sum. self.new ≡ finite.insert self.old key.now sum) }
        ensures err { OnErr result (self.new ≡ self.old) }
    {
        self.counts.add(key, by)
    }

    /// Gives a text this count, in place of the one that it may have.
    ///
    /// One look-up. Takes memory in each call. After [`NoMemory`] the counters are as before.
    pub fn set(&mut self, key: &[u8], count: i64) -> Result<(), NoMemory>
        ensures ok { OnOk result (self.new ≡ finite.insert self.old key.now count) }
        ensures err { OnErr result (self.new ≡ self.old) }
    {
        self.counts.set(key, count)
    }

    /// What [`Keyed::add`] would answer, if there is memory. Nothing changes.
    pub fn raised(&self, key: &[u8], by: i64) -> i64
        ensures { result ≡ raised self.now key.now by }
    {
        match self.counts.get(key) {
            Some(count) => total(*count, by),
            None => by,
        }
    }

    /// Changes the counters as a change of function asks. The divisor of a [`Carry::Scale`] is at
    /// least 1. Takes no memory.
    pub fn carry(&mut self, carry: Carry)
        requires { CanCarry carry }
        ensures { self.new ≡ carried carry self.old }
    {
        match carry {
            Carry::Keep => {}
            Carry::Reset => self.counts.clear(),
            Carry::Scale(by, over) => self.counts.scale_all(by, over),
            Carry::DropBelow(least) => self.counts.keep_from(least),
        }
    }

    /// The same counters once more.
    pub fn copy(&self) -> Result<Keyed, NoMemory>
        ensures { IfOk result (λ copy. copy ≡ self.now) }
    {
        Ok(Keyed {
            counts: self.counts.copy()?,
        })
    }
}
