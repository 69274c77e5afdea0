ghost use Rattle.std.specs.Prelude.{◌≡◌, ◌≢◌, ◌||◌, Ok, Err, IfOk, IfErr, map, option_map};
ghost use Rattle.std.specs.Prelude.{string_bytes};
ghost use Rattle.std.specs.BTreeMap as tree;
ghost use Rattle.std.specs.List.{list_all, list_any};
ghost use Rattle.std.specs.Str.{bytes_eq};
ghost use Rattle.toml.specs.Data.{get_member};
ghost use Rattle.toml.specs.View.{items_view, table_view, view};
ghost use Rattle.job_file.specs.Document.{document_of, has_only, items_of_key};
ghost use Rattle.job_file.specs.Document.{items_of, optional_items_at, table_of};
ghost use Rattle.job_file.specs.Document.{text_of_key, text_of};
ghost use Rattle.job_file.specs.Document.{whole_of_key, whole_of, optional_whole_at};

use crate::fault::{FormFault, Part};
use std::alloc::Global;
use toml::{Table, Value as Toml};

/// The table of a document.
pub(crate) fn document(alloc: Global, bytes: &[u8]) -> Result<Table, FormFault>
    ensures ok { IfOk result (λ table. document_of bytes.now ≡ Ok (table_view table)) }
    ensures fault { IfErr result (λ fault. fault ≢ FormFault.NoMemory
        → document_of bytes.now ≡ Err fault) }
{
    match toml::table_from_slice(alloc, bytes) {
        Ok(table) => Ok(table),
        Err(error) => {
            if error.is_memory() {
                Err(FormFault::NoMemory)
            } else {
                Err(FormFault::NotToml)
            }
        }
    }
}

/// Whether each key of a table is among these or those.
pub(crate) fn has_only(table: &Table, these: &[&str], those: &[&str]) -> bool
    ensures { result ≡ has_only (map (λ key. key.now) these.now) (map (λ key. key.now) those.now)
        (table_view table.now) }
{
    are_among(table, these, those)
}

// Whether each key of a table is among these or those, over the keys of the map.
fn are_among(table: &Table, these: &[&str], those: &[&str]) -> bool
    ensures { result ≡ list_all (λ key. list_any (λ k. bytes_eq k.now (string_bytes key)) these.now
        || list_any (λ k. bytes_eq k.now (string_bytes key)) those.now) (tree.keys table.now) }
{
    table.keys().all(|key| is_known(key.as_str(), these, those))
}

fn is_known(key: &str, these: &[&str], those: &[&str]) -> bool
    ensures { result ≡ (list_any (λ k. bytes_eq k.now key.now) these.now || list_any
        (λ k. bytes_eq k.now key.now) those.now) }
{
    is_among(key, these) || is_among(key, those)
}

fn is_among(key: &str, keys: &[&str]) -> bool
    ensures { result ≡ list_any (λ k. bytes_eq k.now key.now) keys.now }
{
    keys.iter().any(|k| *k == key)
}

/// The value at a key.
pub(crate) fn member<'a>(table: &'a Table, key: &str) -> Option<&'a Toml>
    ensures { option_map (λ value. view value.now) result
        ≡ get_member key.now (table_view table.now) }
{
    table.get(key)
}

/// A value that is a text.
pub(crate) fn text(value: &Toml, part: Part) -> Result<&str, FormFault>
    ensures ok { IfOk result (λ text. text_of part (view value.now) ≡ Ok text.now) }
    ensures fault { IfErr result (λ fault. text_of part (view value.now) ≡ Err fault) }
{
    match value.as_str() {
        Some(text) => Ok(text),
        None => Err(FormFault::Shape(part)),
    }
}

/// A value that is a whole number.
pub(crate) fn whole(value: &Toml, part: Part) -> Result<i64, FormFault>
    ensures ok { IfOk result (λ number. whole_of part (view value.now) ≡ Ok number) }
    ensures fault { IfErr result (λ fault. whole_of part (view value.now) ≡ Err fault) }
{
    match value.as_integer() {
        Some(number) => Ok(number),
        None => Err(FormFault::Shape(part)),
    }
}

/// The items of a value that is an array.
pub(crate) fn items(value: &Toml, part: Part) -> Result<&[Toml], FormFault>
    ensures ok { IfOk result (λ items. items_of part (view value.now) ≡ Ok (items_view items.now)) }
    ensures fault { IfErr result (λ fault. items_of part (view value.now) ≡ Err fault) }
{
    match value.as_array() {
        Some(array) => Ok(array.as_slice()),
        None => Err(FormFault::Shape(part)),
    }
}

/// A value that is a table.
pub(crate) fn table(value: &Toml, part: Part) -> Result<&Table, FormFault>
    ensures ok { IfOk result (λ table. table_of part (view value.now) ≡ Ok (table_view table.now)) }
    ensures fault { IfErr result (λ fault. table_of part (view value.now) ≡ Err fault) }
{
    match value.as_table() {
        Some(table) => Ok(table),
        None => Err(FormFault::Shape(part)),
    }
}

/// The text at a key.
pub(crate) fn text_at<'a>(table: &'a Table, key: &str, part: Part) -> Result<&'a str, FormFault>
    ensures ok { IfOk result (λ text. text_of_key key.now part (table_view table.now)
        ≡ Ok text.now) }
    ensures fault { IfErr result (λ fault. text_of_key key.now part (table_view table.now)
        ≡ Err fault) }
{
    match member(table, key) {
        Some(value) => text(value, part),
        None => Err(FormFault::Shape(part)),
    }
}

/// The whole number at a key.
pub(crate) fn whole_at(table: &Table, key: &str, part: Part) -> Result<i64, FormFault>
    ensures ok { IfOk result (λ number. whole_of_key key.now part (table_view table.now)
        ≡ Ok number) }
    ensures fault { IfErr result (λ fault. whole_of_key key.now part (table_view table.now)
        ≡ Err fault) }
{
    match member(table, key) {
        Some(value) => whole(value, part),
        None => Err(FormFault::Shape(part)),
    }
}

/// The whole number at a key, or this one where there is none.
pub(crate) fn whole_or(table: &Table, key: &str, part: Part, default: i64) -> Result<i64, FormFault>
    ensures ok { IfOk result (λ number. optional_whole_at key.now part default
        (table_view table.now) ≡ Ok number) }
    ensures fault { IfErr result (λ fault. optional_whole_at key.now part default
        (table_view table.now) ≡ Err fault) }
{
    match member(table, key) {
        Some(value) => whole(value, part),
        None => Ok(default),
    }
}

/// The items of the array at a key.
pub(crate) fn items_at<'a>(table: &'a Table, key: &str, part: Part) -> Result<&'a [Toml], FormFault>
    ensures ok { IfOk result (λ items. items_of_key key.now part (table_view table.now)
        ≡ Ok (items_view items.now)) }
    ensures fault { IfErr result (λ fault. items_of_key key.now part (table_view table.now)
        ≡ Err fault) }
{
    match member(table, key) {
        Some(value) => items(value, part),
        None => Err(FormFault::Shape(part)),
    }
}

/// The items of the array at a key, or none where there is no such key.
pub(crate) fn items_or_none<'a>(
    table: &'a Table,
    key: &str,
    part: Part,
) -> Result<&'a [Toml], FormFault>
    ensures ok { IfOk result (λ items. optional_items_at key.now part (table_view table.now)
        ≡ Ok (items_view items.now)) }
    ensures fault { IfErr result (λ fault. optional_items_at key.now part (table_view table.now)
        ≡ Err fault) }
{
    match member(table, key) {
        Some(value) => items(value, part),
        None => Ok(&[]),
    }
}
