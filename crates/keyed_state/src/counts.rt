ghost use Rattle.std.specs.Prelude.{◌≡◌, pos, IsTrue, ◌≤ℤ◌, int_le, map, filter, IfOk, OnErr, OnOk};
ghost use Rattle.std.specs.BTreeMap.{IsOrdered};
ghost use Rattle.std.specs.FinMap as finite;
ghost use Rattle.keyed_state.specs.Counts.{scaled, raised, scaled_all, from_least};
ghost use Rattle.keyed_state.specs.TextMap.{text_cmp};

use crate::TextMap;
use crate::number::{scale, total};
use std::collections::BTreeMap;
use tuple_trace::NoMemory;

impl TextMap<i64> {
    /// Adds to the count of a text, and answers the sum. After [`NoMemory`] the counts are as
    /// before.
    pub(crate) fn add(&mut self, key: &[u8], by: i64) -> Result<i64, NoMemory>
        ensures sum { IfOk result (λ sum. sum ≡ raised self.old key.now by) }
        ensures ok { IfOk result (λ sum. self.new ≡ finite.insert self.old key.now sum) }
        ensures err { OnErr result (self.new ≡ self.old) }
    {
        if let Some(count) = self.entries.get_mut(key) {
            let sum = total(*count, by);
            *count = sum;
            return Ok(sum);
        }
        let owned = Vec::from_slice(self.alloc, key)?;
        self.entries.insert(owned, by)?;
        Ok(by)
    }

    /// Gives a text this count, in place of the one that it may have. After [`NoMemory`] the counts
    /// are as before.
    pub(crate) fn set(&mut self, key: &[u8], count: i64) -> Result<(), NoMemory>
        ensures ok { OnOk result (self.new ≡ finite.insert self.old key.now count) }
        ensures err { OnErr result (self.new ≡ self.old) }
    {
        let owned = Vec::from_slice(self.alloc, key)?;
        self.entries.insert(owned, count)?;
        Ok(())
    }

    /// Scales each count.
    pub(crate) fn scale_all(&mut self, by: i64, over: i64)
        requires { pos 1 ≤ℤ over }
        ensures { self.new ≡ scaled_all by over self.old }
    {
        scale_values(&mut self.entries, by, over);
    }

    /// Keeps the counts that aren't below `least`.
    pub(crate) fn keep_from(&mut self, least: i64)
        ensures { self.new ≡ from_least least self.old }
    {
        keep_values(&mut self.entries, least);
    }
}

fn scale_values(counts: &mut BTreeMap<Vec<u8>, i64>, by: i64, over: i64)
    requires { pos 1 ≤ℤ over }
    ensures scaled { counts.new.entries ≡ map (λ e. (e.0, scaled by over e.1)) counts.old.entries }
    ensures ordered { IsOrdered text_cmp counts.old }
{
    counts.retain(
        |_, count|
            requires { pos 1 ≤ℤ over }
            ensures kept { IsTrue result }
            ensures scaled { count.new ≡ scaled by over count.old }
        {
            *count = scale(*count, by, over);
            true
        },
    );
}

fn keep_values(counts: &mut BTreeMap<Vec<u8>, i64>, least: i64)
    ensures kept { counts.new.entries ≡ filter (λ e. int_le least e.1) counts.old.entries }
    ensures ordered { IsOrdered text_cmp counts.old }
{
    counts.retain(
        |_, count|
            ensures tested { result ≡ int_le least count.old }
            ensures same { count.new ≡ count.old }
        { *count >= least },
    );
}
