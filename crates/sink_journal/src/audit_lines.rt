ghost use Rattle.std.specs.Prelude.{◌≡◌, ◌++◌, ◌∷◌, [], false, IfOk, OnOk};
ghost use Rattle.std.specs.Prelude.{codes, decimal, length, map};
ghost use Rattle.std.specs.FinMap as finite;
ghost use Rattle.csv.specs.Writing.{default_writer, fields_text, needs_quotes};
ghost use Rattle.sink_journal.specs.Audit.{audit_header, dotted, shown};
ghost use Rattle.sink_journal.specs.Audit.{entry_fields, feed_fields, refused_fields, state_fields};
ghost use Rattle.sink_journal.specs.Audit.{worker_records, workers_records};
ghost use Rattle.sink_journal.specs.Records.{record_text, records_text};

use crate::audit::Noted;
use crate::lines::Lines;
use crate::{Entry, Feed, Journal};
use keyed_state::Keyed;
use std::alloc::Global;
use std::marker::Model;
use tuple_trace::{Bytes, NoMemory};

// About how many bytes a record takes.
const RECORD_BYTES: usize = 24;

/// Records of an audit, which are appended one after another. Contracts see their text.
///
/// Whoever makes an audit in parts appends to one of these for each part. The parts may be made in
/// any order, and at once. Put together in the order of [`audit_text`](crate::audit_text), they
/// are its text.
///
/// A call that returns `Err` was out of memory, and may have appended a part of its records.
#[derive(Drop)]
pub struct AuditLines {
    alloc: Global,
    lines: Lines,
}

impl Model for AuditLines {
    ghost use Rattle.std.specs.Prelude.{List, ℕ};

    ghost Value = { List ℕ };

    ghost view = { λ a. a.lines };
}

// A worker, and the texts with which its records begin.
#[derive(Clone, Copy)]
struct Front<'n, 'f> {
    node: &'n [u8],
    place: usize,
    /// The fields of the node and of the place, as each record of the worker has them.
    worker: &'f [u8],
    /// The first three fields of a tuple that it met.
    met: &'f [u8],
    ghost fields: { worker.now ≡ fields_text default_writer (node.now ∷ decimal place ∷ []) },
    ghost first: { met.now ≡ codes "met" ++ worker.now },
}

// A step of a worker: its word, and what there is of a lane, a number and a birth.
#[derive(Clone, Copy)]
struct StepFields<'a> {
    entry: &'static [u8],
    lane: Option<u64>,
    number: Option<u64>,
    birth: &'a [u32],
    ghost plain: { needs_quotes default_writer entry.now ≡ false },
}

impl AuditLines {
    /// No records. Room is made for about `records` of them, if there is memory.
    pub fn new(alloc: Global, records: usize) -> Self
        ensures { result ≡ [] }
    {
        AuditLines {
            alloc,
            lines: Lines::with_room(alloc, records.saturating_mul(RECORD_BYTES)),
        }
    }

    /// The text.
    pub fn into_text(self) -> Bytes
        ensures { result ≡ self }
    {
        self.lines.into_text()
    }

    /// Appends the header.
    pub fn write_header(&mut self) -> Result<(), NoMemory>
        ensures { OnOk result (self.new ≡ self.old ++ record_text audit_header) }
    {
        self.lines.add(b"entry,node,worker,lane,number,extra\n")
    }

    /// Appends a record for each refused request.
    pub fn write_refused(&mut self, refused: &[Noted]) -> Result<(), NoMemory>
        ensures { OnOk result (self.new ≡
            self.old ++ records_text (map refused_fields refused.now)) }
    {
        for noted in refused {
            self.write_noted(*noted)?;
        }
        Ok(())
    }

    fn write_noted(&mut self, noted: Noted) -> Result<(), NoMemory>
        ensures { OnOk result (self.new ≡ self.old ++ record_text (refused_fields noted)) }
    {
        self.lines.add(b"refused,,,")?;
        self.lines.add_number(noted.place.into())?;
        self.lines.add_code(noted.code)?;
        self.lines.end()
    }

    /// Appends a record for each step of the feeder.
    pub fn write_feeds(&mut self, feeds: &[Feed]) -> Result<(), NoMemory>
        ensures { OnOk result (self.new ≡ self.old ++ records_text (map feed_fields feeds.now)) }
    {
        for feed in feeds {
            self.write_feed(*feed)?;
        }
        Ok(())
    }

    fn write_feed(&mut self, feed: Feed) -> Result<(), NoMemory>
        ensures { OnOk result (self.new ≡ self.old ++ record_text (feed_fields feed)) }
    {
        match feed {
            Feed::Fed(row) => self.write_fed(b"fed,,,", row),
            Feed::Issued(request) => self.write_fed(b"issued,,,", request),
            Feed::Stopped => self.lines.add(b"stopped,,,,,\n"),
        }
    }

    // The rest of a step of the feeder, after its first four fields.
    fn write_fed(&mut self, front: &[u8], number: u64) -> Result<(), NoMemory>
        ensures { OnOk result (self.new ≡ self.old ++ (front.now
            ++ (fields_text default_writer (decimal number ∷ []) ++ 44 ∷ 10 ∷ []))) }
    {
        self.lines.end_numbered(front, number)
    }

    /// Appends the records of the workers of a node, given what each of them leaves.
    pub(crate) fn write_node(
        &mut self,
        node: &[u8],
        journals: &[Journal],
        states: &[Keyed],
    ) -> Result<(), NoMemory>
        requires { length states.now ≡ length journals.now }
        ensures { OnOk result (self.new ≡
            self.old ++ records_text (workers_records node.now 0 journals.now states.now)) }
    {
        for (place, journal) in journals.iter().enumerate() {
            self.write_worker(node, place, journal, &states[place])?;
        }
        Ok(())
    }

    /// Appends a record for each of these steps of the worker at this place of the node with this
    /// name.
    pub fn write_steps(
        &mut self,
        node: &[u8],
        place: usize,
        steps: &[Entry],
    ) -> Result<(), NoMemory>
        ensures { OnOk result (self.new ≡
            self.old ++ records_text (map (entry_fields node.now place) steps.now)) }
    {
        let worker = worker_fields(self.alloc, node, place)?;
        let met = met_fields(self.alloc, worker.as_slice())?;
        let front = Front {
            node,
            place,
            worker: worker.as_slice(),
            met: met.as_slice(),
        };
        self.write_journal(front, steps)
    }

    /// Appends a record for each count of the worker at this place of the node with this name.
    pub fn write_counts(&mut self, node: &[u8], place: usize, state: &Keyed) -> Result<(), NoMemory>
        ensures { OnOk result (self.new ≡ self.old
            ++ records_text (map (state_fields node.now place) (finite.entries state.now))) }
    {
        let worker = worker_fields(self.alloc, node, place)?;
        self.write_state(node, place, worker.as_slice(), state)
    }

    fn write_worker(
        &mut self,
        node: &[u8],
        place: usize,
        journal: &Journal,
        state: &Keyed,
    ) -> Result<(), NoMemory>
        ensures { OnOk result (self.new ≡
            self.old ++ records_text (worker_records node.now place journal.now state.now)) }
    {
        let worker = worker_fields(self.alloc, node, place)?;
        let met = met_fields(self.alloc, worker.as_slice())?;
        let front = Front {
            node,
            place,
            worker: worker.as_slice(),
            met: met.as_slice(),
        };
        self.write_journal(front, journal.as_slice())?;
        self.write_state(node, place, worker.as_slice(), state)
    }

    fn write_journal(&mut self, front: Front<'_, '_>, journal: &[Entry]) -> Result<(), NoMemory>
        ensures { OnOk result (self.new ≡ self.old
            ++ records_text (map (entry_fields front.entry.node.now front.entry.place)
            journal.now)) }
    {
        for entry in journal {
            self.write_entry(front, entry)?;
        }
        Ok(())
    }

    fn write_entry(&mut self, front: Front<'_, '_>, entry: &Entry) -> Result<(), NoMemory>
        ensures { OnOk result (self.new ≡ self.old
            ++ record_text (entry_fields front.entry.node.now front.entry.place entry.now)) }
    {
        let step = match entry {
            Entry::Met { lane, tuple } => {
                let (lane, birth) = (u64::from(*lane), tuple.birth.as_slice());
                return self.write_met(front, lane, tuple.row, birth);
            }
            Entry::Marked { lane, request } => StepFields {
                entry: b"marked",
                lane: Some(u64::from(*lane)),
                number: Some(*request),
                birth: &[],
            },
            Entry::Turned { request } => StepFields {
                entry: b"turned",
                lane: None,
                number: Some(*request),
                birth: &[],
            },
            Entry::Ended { lane } => StepFields {
                entry: b"ended",
                lane: Some(u64::from(*lane)),
                number: None,
                birth: &[],
            },
        };
        self.write_step(front, step)
    }

    // A tuple that the worker met. One without a birth is appended as one text.
    #[inline]
    fn write_met(
        &mut self,
        front: Front<'_, '_>,
        lane: u64,
        row: u64,
        birth: &[u32],
    ) -> Result<(), NoMemory>
        ensures { OnOk result (self.new ≡ self.old ++ record_text (codes "met"
            ∷ front.entry.node.now ∷ decimal front.entry.place ∷ decimal lane ∷ decimal row
            ∷ dotted birth.now ∷ [])) }
    {
        if birth.is_empty() {
            return self.lines.end_laned(front.met, lane, row);
        }
        let step = StepFields {
            entry: b"met",
            lane: Some(lane),
            number: Some(row),
            birth,
        };
        self.write_step(front, step)
    }

    #[inline]
    fn write_step(&mut self, front: Front<'_, '_>, step: StepFields<'_>) -> Result<(), NoMemory>
        ensures { OnOk result (self.new ≡ self.old ++ record_text (step.entry.entry.now
            ∷ front.entry.node.now ∷ decimal front.entry.place ∷ shown step.entry.lane
            ∷ shown step.entry.number ∷ dotted step.entry.birth.now ∷ [])) }
    {
        self.begin(step.entry, front.worker)?;
        self.lines.add_shown(step.lane)?;
        self.lines.add_shown(step.number)?;
        self.lines.add_dotted(step.birth)?;
        self.lines.end()
    }

    // The first three fields of a record of the worker.
    fn begin(&mut self, entry: &[u8], worker: &[u8]) -> Result<(), NoMemory>
        ensures { OnOk result (self.new ≡ self.old ++ (entry.now ++ worker.now)) }
    {
        self.lines.add(entry)?;
        self.lines.add(worker)
    }

    fn write_state(
        &mut self,
        node: &[u8],
        place: usize,
        worker: &[u8],
        state: &Keyed,
    ) -> Result<(), NoMemory>
        requires { worker.now ≡ fields_text default_writer (node.now ∷ decimal place ∷ []) }
        ensures { OnOk result (self.new ≡ self.old
            ++ records_text (map (state_fields node.now place) (finite.entries state.now))) }
    {
        for (key, count) in state.iter() {
            self.write_count(node, place, worker, key, *count)?;
        }
        Ok(())
    }

    fn write_count(
        &mut self,
        node: &[u8],
        place: usize,
        worker: &[u8],
        key: &[u8],
        count: i64,
    ) -> Result<(), NoMemory>
        requires { worker.now ≡ fields_text default_writer (node.now ∷ decimal place ∷ []) }
        ensures { OnOk result (self.new ≡
            self.old ++ record_text (state_fields node.now place (key.now, count))) }
    {
        self.begin(b"state", worker)?;
        self.lines.add(b",")?;
        self.lines.add_signed(count)?;
        self.lines.add_text(key)?;
        self.lines.end()
    }
}

// The fields that name a worker: its node and its place.
fn worker_fields(alloc: Global, node: &[u8], place: usize) -> Result<Bytes, NoMemory>
    ensures { IfOk result (λ fields. fields ≡
        fields_text default_writer (node.now ∷ decimal place ∷ [])) }
{
    let mut lines = Lines::with_room(alloc, 0);
    lines.add_text(node)?;
    lines.add_number(place as u64)?;
    Ok(lines.into_text())
}

// The first three fields of a tuple that a worker met, given the fields that name the worker.
fn met_fields(alloc: Global, worker: &[u8]) -> Result<Bytes, NoMemory>
    ensures { IfOk result (λ front. front ≡ codes "met" ++ worker.now) }
{
    let mut lines = Lines::with_room(alloc, 0);
    lines.add(b"met")?;
    lines.add(worker)?;
    Ok(lines.into_text())
}
