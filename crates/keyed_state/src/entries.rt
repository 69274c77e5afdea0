ghost use Rattle.std.specs.Prelude.{◌≡◌, map};
ghost use Rattle.std.specs.Iterator.{YieldsFirstBy, item_count};

use std::collections::btree_map::Iter;
use std::marker::Model;

/// The entries of a map that are left to be shown. Contracts see their list.
#[derive(Drop)]
pub struct TextEntries<'a, V> {
    entries: Iter<'a, Vec<u8>, V>,
}

impl<'a, V> Model for TextEntries<'a, V> {
    ghost use Rattle.std.specs.Prelude.{List, ℕ, map};

    ghost Value = { List (List ℕ × V) };

    ghost use Rattle.keyed_state.specs.TextMap.{shown};

    ghost view = { λ a. map shown a.entries };
}

impl<'a, V> TextEntries<'a, V> {
    ghost use Rattle.keyed_state.specs.TextMap.{shown};

    pub(crate) fn new(entries: Iter<'a, Vec<u8>, V>) -> Self
        ensures { result ≡ map shown entries.entry }
    {
        TextEntries { entries }
    }
}

impl<'a, V> Iterator for TextEntries<'a, V> {
    type Item = (&'a [u8], &'a V);

    ghost next_gives = { YieldsFirstBy (λ item. (item.0.now, item.1.now)) (λ rest. rest) };

    ghost remaining = { item_count (λ rest. rest) };

    fn next(&mut self) -> Option<(&'a [u8], &'a V)> {
        let (key, value) = self.entries.next()?;
        Some((key.as_slice(), value))
    }
}
