// The entries of a journal by their lanes, and whether they are the items of these lanes.
ghost use Rattle.std.specs.Prelude.{◌≡◌, ◌<◌, ◌↔◌, [], IfOk, IsTrue, OnOk, Some};
ghost use Rattle.std.specs.Prelude.{get_or, length, map, replicate};
ghost use Rattle.audit_laws.specs.Faults.{seen};
ghost use Rattle.audit_restore.specs.ByLane.{AreOnLanes, added_to, entries_of};
ghost use Rattle.audit_restore.specs.ByLane.{lane_came_by as lane_by};

use audit_laws::AuditEntry;
use std::alloc::Global;
use std::collections::VecDeque;
use std::marker::Model;
use tuple_trace::{Item, NoMemory};

/// The entries of a journal that came by each lane, by the lanes' numbers.
#[derive(Drop)]
pub(crate) struct ByLane<'a> {
    lists: Vec<Vec<&'a AuditEntry>>,
}

impl<'a> Model for ByLane<'a> {
    ghost use Rattle.std.specs.Prelude.{List, map};
    ghost use Rattle.audit_laws.specs.declared.audit.AuditEntry.{AuditEntry};
    ghost use Rattle.audit_restore.specs.ByLane.{entries_of};

    ghost Value = { List (List AuditEntry) };

    ghost view = { λ b. map (λ list. entries_of list.items) b.lists.items };
}

impl<'a> ByLane<'a> {
    /// The entries of a journal, by the numbers of the lanes.
    pub(crate) fn of(
        alloc: Global,
        lanes: usize,
        journal: &'a [AuditEntry],
    ) -> Result<ByLane<'a>, NoMemory>
        ensures { IfOk result (AreOnLanes lanes journal.now) }
    {
        let mut by_lane = ByLane::empty(alloc, lanes)?;
        for entry in journal {
            by_lane.add(entry)?;
        }
        Ok(by_lane)
    }

    fn empty(alloc: Global, lanes: usize) -> Result<ByLane<'a>, NoMemory>
        ensures { IfOk result (λ by_lane. by_lane ≡ replicate lanes []) }
    {
        let mut lists = Vec::new(alloc);
        for _lane in 0..lanes {
            lists.push(Vec::new(alloc))?;
        }
        Ok(ByLane { lists })
    }

    // Adds an entry to those of its lane, if it came by one of these lanes.
    fn add(&mut self, entry: &'a AuditEntry) -> Result<(), NoMemory>
        ensures { OnOk result (self.new ≡ added_to self.old entry.now (lane_by entry.now)) }
    {
        match lane_of(entry) {
            Some(lane) => self.add_to(lane as usize, entry),
            None => Ok(()),
        }
    }

    fn add_to(&mut self, lane: usize, entry: &'a AuditEntry) -> Result<(), NoMemory>
        ensures { OnOk result (self.new ≡ added_to self.old entry.now (Some lane)) }
    {
        if lane < self.lists.len() {
            self.lists[lane].push(entry)?;
        }
        Ok(())
    }

    /// The entries of a lane.
    pub(crate) fn on(&self, lane: usize) -> &[&'a AuditEntry]
        requires { lane < length self.now }
        ensures { entries_of result.now ≡ get_or self.now lane [] }
    {
        self.lists[lane].as_slice()
    }
}

// The lane that an entry came by.
fn lane_of(entry: &AuditEntry) -> Option<u32>
    ensures { result ≡ lane_by entry.now }
{
    match entry {
        AuditEntry::Met { lane, .. } => Some(*lane),
        AuditEntry::Marked { lane, .. } => Some(*lane),
        AuditEntry::Turned { .. } => None,
        AuditEntry::Ended { lane } => Some(*lane),
    }
}

/// Whether these entries are the items that stand on their lane, by row, births, request and end.
pub(crate) fn are_items(lane: u32, items: &VecDeque<Item>, entries: &[&AuditEntry]) -> bool
    ensures { IsTrue result ↔ (map (seen lane) items.now.items ≡ entries_of entries.now) }
{
    if items.len() != entries.len() {
        return false;
    }
    for place in 0..entries.len() {
        if !is_item(lane, &items[place], entries[place]) {
            return false;
        }
    }
    true
}

fn is_item(lane: u32, item: &Item, entry: &AuditEntry) -> bool
    ensures { IsTrue result ↔ (seen lane item.now ≡ entry.now) }
{
    match item {
        Item::Carry(tuple) => match entry {
            AuditEntry::Met {
                lane: by,
                row,
                birth,
            } => *by == lane
                && *row == tuple.row
                && are_same(tuple.birth.as_slice(), birth.as_slice()),
            AuditEntry::Marked { .. } | AuditEntry::Turned { .. } | AuditEntry::Ended { .. } =>
                false,
        },
        Item::Mark { request, .. } => match entry {
            AuditEntry::Marked {
                lane: by,
                request: marked,
            } => *by == lane && *marked == *request,
            AuditEntry::Met { .. } | AuditEntry::Turned { .. } | AuditEntry::Ended { .. } => false,
        },
        Item::Last => match entry {
            AuditEntry::Ended { lane: by } => *by == lane,
            AuditEntry::Met { .. } | AuditEntry::Marked { .. } | AuditEntry::Turned { .. } => false,
        },
    }
}

fn are_same(one: &[u32], other: &[u32]) -> bool
    ensures { IsTrue result ↔ (one.now ≡ other.now) }
{
    one == other
}
