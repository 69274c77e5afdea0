ghost use Rattle.std.specs.Prelude.{◌≡◌, IsTrue, ◌↔◌, IfOk, OnOk, OnErr, option_copied};
ghost use Rattle.std.specs.FinMap as finite;

use crate::TextEntries;
use std::alloc::Global;
use std::collections::BTreeMap;
use std::marker::Model;
use tuple_trace::NoMemory;

/// A finite map from texts, in the order of their bytes. A look-up is logarithmic.
#[derive(Clone, Debug, Drop)]
pub struct TextMap<V> {
    pub(crate) alloc: Global,
    pub(crate) entries: BTreeMap<Vec<u8>, V>,
}

impl<V> Model for TextMap<V> {
    ghost use Rattle.std.specs.Coded.{coded_list, coded_ℕ};
    ghost use Rattle.std.specs.FinMap as map;
    ghost use Rattle.keyed_state.specs.TextMap.{TextMapOf, map_of};

    ghost Value = { TextMapOf V };

    ghost coded = { map.code (coded_list coded_ℕ) V.code };

    ghost view = { λ m. map_of m.entries.entries };
}

impl<V> TextMap<V> {
    /// No entries. Takes no memory.
    pub fn new(alloc: Global) -> TextMap<V>
        ensures { result ≡ finite.empty }
    {
        TextMap {
            alloc,
            entries: BTreeMap::new(alloc),
        }
    }

    /// How many entries there are.
    pub fn len(&self) -> usize
        ensures { result ≡ finite.len self.now }
    {
        self.entries.len()
    }

    /// The value of a text.
    pub fn get(&self, key: &[u8]) -> Option<&V>
        ensures { option_copied result ≡ finite.get self.now key.now }
    {
        self.entries.get(key)
    }

    /// All entries, in the order of the texts by bytes.
    pub fn iter(&self) -> TextEntries<'_, V>
        ensures { result ≡ finite.entries self.now }
    {
        TextEntries::new(self.entries.iter())
    }
}

impl<V: Drop> TextMap<V> {
    /// Takes all entries out.
    pub fn clear(&mut self)
        ensures { self.new ≡ finite.empty }
    {
        self.entries.clear();
    }

    /// Gives a text this value, in place of the one that it may have. After [`NoMemory`] the map is
    /// as before, and the value is given up.
    ///
    /// Takes memory only where the text is new.
    pub fn insert(&mut self, key: &[u8], value: V) -> Result<(), NoMemory>
        ensures ok { OnOk result (self.new ≡ finite.insert self.old key.now value) }
        ensures err { OnErr result (self.new ≡ self.old) }
    {
        if let Some(held) = self.entries.get_mut(key) {
            *held = value;
            return Ok(());
        }
        let owned = Vec::from_slice(self.alloc, key)?;
        self.entries.insert(owned, value)?;
        Ok(())
    }
}

impl<V: Clone + Drop> TextMap<V> {
    /// A map with copies of all entries.
    pub fn copy(&self) -> Result<TextMap<V>, NoMemory>
        ensures { IfOk result (λ copy. ((x y : V) → V.is_clone x y → y ≡ x) → copy ≡ self.now) }
    {
        Ok(self.clone()?)
    }
}
