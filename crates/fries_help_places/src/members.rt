// The members of tables.
use toml::{Table, Value as Toml};

/// A file that is a TOML document.
#[derive(Clone, Copy)]
pub struct TomlFile<'a> {
    pub table: &'a Table,
    pub bytes: &'a [u8],
}

/// The table with a number among those of an array of tables.
pub(crate) fn table_at<'a>(file: &'a Table, key: &str, number: usize) -> Option<&'a Table> {
    tables_at(file, key).get(number)?.as_table()
}

/// The items of the array at a key; none if there is no array.
pub(crate) fn tables_at<'a>(file: &'a Table, key: &str) -> &'a [Toml] {
    match file.get(key) {
        Some(value) => items_of(value),
        None => &[],
    }
}

/// The items of an array; none of any other value.
pub(crate) fn items_of(value: &Toml) -> &[Toml] {
    match value.as_array() {
        Some(array) => array.as_slice(),
        None => &[],
    }
}

/// The text at a key.
pub(crate) fn text_at<'a>(table: &'a Table, key: &str) -> Option<&'a str> {
    table.get(key)?.as_str()
}

/// The tables of values of a job file, if it has some.
pub(crate) fn job_tables(job: &Table) -> Option<&Table> {
    job.get("tables")?.as_table()
}
