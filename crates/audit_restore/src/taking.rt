// The journal in which each entry takes the next item of its lane.
ghost use Rattle.std.specs.Prelude.{◌≡◌, ◌∷◌, ◌++◌, [], IfOk, OnOk, option_to_list};
ghost use Rattle.audit_laws.specs.Restoring.{restored, took as took_by, took_next};
ghost use Rattle.audit_restore.specs.Standing.{HasTaken, HasTakenAll, left_on};

use crate::standing::Standing;
use audit_laws::AuditEntry;
use sink_journal::{Entry, Journal};
use std::alloc::Global;
use tuple_trace::{Item, NoMemory};

/// The journal in which each entry takes the next item of its lane.
pub(crate) fn take_all(
    alloc: Global,
    standing: &mut Standing,
    journal: &[AuditEntry],
) -> Result<Journal, NoMemory>
    ensures journal { IfOk result (λ made. made ≡ restored (left_on standing.old) journal.now) }
    ensures left { OnOk result (HasTakenAll journal.now standing.old standing.new) }
{
    let mut made = Journal::new(alloc);
    for entry in journal {
        let step = taken(standing, entry);
        add(&mut made, step)?;
    }
    Ok(made)
}

// Appends a step, if there is one.
fn add(made: &mut Journal, step: Option<Entry>) -> Result<(), NoMemory>
    ensures { OnOk result (made.new ≡ made.old ++ option_to_list step) }
{
    match step {
        Some(step) => made.push(step),
        None => Ok(()),
    }
}

fn taken(standing: &mut Standing, entry: &AuditEntry) -> Option<Entry>
    ensures made { option_to_list result ≡ restored (left_on standing.old) (entry.now ∷ []) }
    ensures left { HasTakenAll (entry.now ∷ []) standing.old standing.new }
{
    match entry {
        AuditEntry::Met { lane, .. } => take_from(standing, *lane),
        AuditEntry::Marked { lane, .. } => take_from(standing, *lane),
        AuditEntry::Turned { request } => Some(Entry::Turned { request: *request }),
        AuditEntry::Ended { lane } => take_from(standing, *lane),
    }
}

fn take_from(standing: &mut Standing, lane: u32) -> Option<Entry>
    ensures made { option_to_list result ≡ took_next lane (left_on standing.old lane) }
    ensures left { HasTaken lane standing.old standing.new }
{
    match standing.take(lane as usize) {
        Some(item) => Some(took(lane, item)),
        None => None,
    }
}

fn took(lane: u32, item: Item) -> Entry
    ensures { result ≡ took_by lane item }
{
    match item {
        Item::Carry(tuple) => Entry::Met { lane, tuple },
        Item::Mark { request, .. } => Entry::Marked { lane, request },
        Item::Last => Entry::Ended { lane },
    }
}
