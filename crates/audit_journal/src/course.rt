// How far a trimmed journal has come by the law of journals.
ghost use Rattle.std.specs.Prelude.{◌≡◌, ◌↔◌, [], All, Contains, IsTrue, OnOk, Some};
ghost use Rattle.flow_model.specs.Duties.{duties};
ghost use Rattle.flow_model.specs.Feeding.{feed_from};
ghost use Rattle.flow_model.specs.Lanes.{lanes_in, marked_lanes};
ghost use Rattle.flow_model.specs.Law.{IsEnabled, IsInTime, after_entry, initial, next_due};
ghost use Rattle.flow_model.specs.Requests.{afters};
ghost use Rattle.flow_model.specs.SetupWorker.{setup_here, who_here};
ghost use Rattle.audit_laws.specs.declared.audit.AuditEntry.TheVariants as kept;
ghost use Rattle.audit_laws.specs.Drafted.{draft, known};
ghost use Rattle.audit_journal.specs.Course.{dues_from, progress_of};

use crate::duty::{brings_marker, due_after, has_all, has_markers, is_lane_in, later_due};
use crate::in_time::is_fed_before;
use crate::marks::Marks;
use audit_laws::AuditEntry;
use flow_model::{SetupWorker, Start};
use std::alloc::Global;
use tuple_trace::NoMemory;

/// How far the journal of a worker has come.
#[derive(Drop)]
pub(crate) struct Course {
    /// The next request that the worker turns.
    due: Option<u64>,
    /// The lanes that showed its marker.
    marked: Marks,
    /// The lanes that ended.
    ended: Marks,
}

impl Course {
    /// The journal of a worker at a start. Takes no memory.
    pub(crate) fn new(alloc: Global, start: &Start, who: SetupWorker<'_>) -> Course
        ensures { progress_of (setup_here who.entry) (who_here who.entry).node result
            ≡ initial (duties (setup_here who.entry) start.now.turned (who_here who.entry)) }
    {
        Course {
            due: due_after(who, start.turned),
            marked: Marks::new(alloc),
            ended: Marks::new(alloc),
        }
    }

    /// Whether the entry may come next, if the rows after those of the start are fed, up to `rows`.
    pub(crate) fn admits(
        &self,
        start: &Start,
        who: SetupWorker<'_>,
        rows: u64,
        entry: &AuditEntry,
    ) -> bool
        ensures { IsTrue result ↔ IsEnabled (duties (setup_here who.entry) start.now.turned
            (who_here who.entry))
            (progress_of (setup_here who.entry) (who_here who.entry).node self.now)
            (draft start.now.turned
            (feed_from start.now.row start.now.turned (afters (setup_here who.entry).requests) rows)
            entry.now) }
    {
        match entry {
            AuditEntry::Met { lane, row, .. } => {
                self.admits_tuple(who, *lane) && self.is_in_time(start, who, rows, *row)
            }
            AuditEntry::Marked { lane, request } => self.admits_marker(who, *lane, *request),
            AuditEntry::Turned { request } => self.admits_turn(who, *request),
            AuditEntry::Ended { lane } => self.admits_end(who, *lane),
        }
    }

    // Whether a tuple may come next by this lane, if it is in time.
    fn admits_tuple(&self, who: SetupWorker<'_>, lane: u32) -> bool
        ensures { IsTrue result
            ↔ (Contains (lanes_in (setup_here who.entry).job who.entry.number) lane
            × (self.now.marked ≡ []) × (self.now.ended ≡ [])) }
    {
        is_lane_in(who, lane) && self.marked.is_empty() && self.ended.is_empty()
    }

    // Whether a tuple of the row comes before the next turn, if the node is a head of its request.
    fn is_in_time(&self, start: &Start, who: SetupWorker<'_>, rows: u64, row: u64) -> bool
        ensures { IsTrue result ↔ IsInTime (duties (setup_here who.entry) start.now.turned
            (who_here who.entry))
            (known start.now.turned
            (feed_from start.now.row start.now.turned (afters (setup_here who.entry).requests) rows)
            row [])
            (next_due (dues_from (setup_here who.entry) (who_here who.entry).node self.now.due)) }
    {
        match self.due {
            Some(due) => !who.is_head(due) || is_fed_before(who.setup, start, rows, row, due),
            None => true,
        }
    }

    fn admits_marker(&self, who: SetupWorker<'_>, lane: u32, request: u64) -> bool
        ensures { IsTrue result ↔ ((self.now.due ≡ Some request)
            × Contains (marked_lanes (setup_here who.entry) who.entry.number request) lane
            × (¬ Contains self.now.marked lane) × (self.now.ended ≡ [])) }
    {
        self.is_next(request)
            && brings_marker(who, lane, request)
            && !self.marked.has(lane)
            && self.ended.is_empty()
    }

    fn admits_turn(&self, who: SetupWorker<'_>, request: u64) -> bool
        ensures { IsTrue result ↔ ((self.now.due ≡ Some request)
            × All (Contains self.now.marked)
            (marked_lanes (setup_here who.entry) who.entry.number request)
            × (self.now.ended ≡ [])) }
    {
        if !self.is_next(request) || !self.ended.is_empty() {
            return false;
        }
        has_markers(who, request, &self.marked)
    }

    fn admits_end(&self, who: SetupWorker<'_>, lane: u32) -> bool
        ensures { IsTrue result
            ↔ (Contains (lanes_in (setup_here who.entry).job who.entry.number) lane
            × (¬ Contains self.now.ended lane) × (dues_from (setup_here who.entry)
            (who_here who.entry).node self.now.due ≡ [])
            × (self.now.marked ≡ [])) }
    {
        is_lane_in(who, lane)
            && !self.ended.has(lane)
            && self.due.is_none()
            && self.marked.is_empty()
    }

    fn is_next(&self, request: u64) -> bool
        ensures { IsTrue result ↔ (self.now.due ≡ Some request) }
    {
        match self.due {
            Some(due) => due == request,
            None => false,
        }
    }

    /// Goes on by an entry. After an error nothing is said of it.
    pub(crate) fn enter(&mut self, who: SetupWorker<'_>, entry: &AuditEntry) -> Result<(), NoMemory>
        ensures { OnOk result (progress_of (setup_here who.entry) (who_here who.entry).node self.new
            ≡ after_entry (progress_of (setup_here who.entry)
            (who_here who.entry).node self.old) (draft 0 [] entry.now)) }
    {
        match entry {
            AuditEntry::Met { .. } => Ok(()),
            AuditEntry::Marked { lane, .. } => self.marked.add(*lane),
            AuditEntry::Turned { .. } => {
                self.due = later_due(who, self.due);
                self.marked.clear();
                Ok(())
            }
            AuditEntry::Ended { lane } => self.ended.add(*lane),
        }
    }

    /// Whether no marker waits for its turn, and every lane into the worker ended.
    pub(crate) fn is_done(&self, who: SetupWorker<'_>) -> bool
        ensures { IsTrue result ↔ ((self.now.marked ≡ [])
            × All (Contains self.now.ended)
            (lanes_in (setup_here who.entry).job who.entry.number)) }
    {
        self.marked.is_empty() && has_all(who.lanes_in(), &self.ended)
    }
}
