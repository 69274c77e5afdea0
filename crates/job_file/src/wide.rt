ghost use Rattle.std.specs.Prelude.{◌≡◌};
ghost use Rattle.toml.specs.View.{items_view, table_view, view};
ghost use Rattle.job_file.specs.Wide.{first_found, is_wide, wide_at, wide_in, wide_item, wide_node};
ghost use Rattle.job_file.specs.Wide.{wide_number};

use crate::document::{items_or_none, member, table};
use crate::fault::Part;
use crate::numbers::NUMBER_MAX;
use jobs::Which;
use toml::{Table as Members, Value as Toml};

/// The first number of a node that a job has no room for.
pub(crate) fn wide_in(members: &Members) -> Option<(Which, i64)>
    ensures { result ≡ wide_in (table_view members.now) }
{
    match items_or_none(members, "node", Part::Node) {
        Ok(items) => first_wide(items),
        Err(_) => None,
    }
}

fn first_wide(items: &[Toml]) -> Option<(Which, i64)>
    ensures { result ≡ first_found wide_item (items_view items.now) }
{
    for item in items {
        if let Some(wide) = wide_item(item) {
            return Some(wide);
        }
    }
    None
}

fn wide_item(item: &Toml) -> Option<(Which, i64)>
    ensures { result ≡ wide_item (view item.now) }
{
    match table(item, Part::Node) {
        Ok(members) => wide_node(members),
        Err(_) => None,
    }
}

fn wide_node(members: &Members) -> Option<(Which, i64)>
    ensures { result ≡ wide_node (table_view members.now) }
{
    if let Some(wide) = wide_at(members, "workers", Which::Workers) {
        return Some(wide);
    }
    if let Some(wide) = wide_at(members, "most", Which::Most) {
        return Some(wide);
    }
    wide_at(members, "roof", Which::Roof)
}

/// The number at a key, where a job has no room for it.
pub(crate) fn wide_at(members: &Members, key: &str, which: Which) -> Option<(Which, i64)>
    ensures { result ≡ wide_at key.now which (table_view members.now) }
{
    match member(members, key) {
        Some(value) => wide_number(which, value.as_integer()),
        None => None,
    }
}

fn wide_number(which: Which, number: Option<i64>) -> Option<(Which, i64)>
    ensures { result ≡ wide_number which number }
{
    match number {
        Some(number) => {
            if is_wide(number) {
                Some((which, number))
            } else {
                None
            }
        }
        None => None,
    }
}

fn is_wide(number: i64) -> bool
    ensures { result ≡ is_wide number }
{
    number < 0 || number > NUMBER_MAX
}
