ghost use Rattle.std.specs.Prelude.{◌≡◌, ◌++◌, [], IfOk, OnOk, length, map};
ghost use Rattle.std.specs.FinMap as finite;
ghost use Rattle.jobs.specs.Job.{job_view};
ghost use Rattle.jobs.specs.Nodes.{worker_count};
ghost use Rattle.sink_journal.specs.Records.{record_text, records_text};
ghost use Rattle.savepoint.specs.SaveText.{count_record, count_records};
ghost use Rattle.savepoint_file.specs.ByNode.{node_records, nodes_count_records};

use crate::cells::Cells;
use crate::sheet::Sheet;
use jobs::{Job, NodeDef};
use keyed_state::Keyed;
use std::alloc::Global;
use std::marker::Model;
use tuple_trace::{Bytes, NoMemory};

/// The text of a savepoint that grows. Contracts see the text of the records that were written.
///
/// What a refused record leaves is open.
#[derive(Drop)]
pub struct SaveSheet {
    sheet: Sheet,
    cells: Cells,
}

impl Model for SaveSheet {
    ghost use Rattle.std.specs.Prelude.{List, ℕ};

    ghost Value = { List ℕ };

    ghost view = { λ a. a.sheet };
}

impl SaveSheet {
    /// No records. Takes no memory.
    pub fn new(alloc: Global) -> Self
        ensures { result ≡ [] }
    {
        SaveSheet {
            sheet: Sheet::new(alloc),
            cells: Cells::new(alloc),
        }
    }

    /// Appends a record of these cells.
    ///
    /// # Errors
    ///
    /// Only out of memory.
    pub fn write(&mut self, cells: &Cells) -> Result<(), NoMemory>
        ensures { OnOk result (self.new ≡ self.old ++ record_text cells.now) }
    {
        self.sheet.write(cells)
    }

    /// Appends a record for each count, given the counts of each worker of a job.
    ///
    /// # Errors
    ///
    /// Only out of memory.
    pub fn write_counts(&mut self, job: &Job, states: &[Keyed]) -> Result<(), NoMemory>
        requires { length states.now ≡ worker_count job.now.nodes }
        ensures { OnOk result (self.new ≡
            self.old ++ records_text (count_records (job_view job.now) states.now)) }
    {
        self.write_nodes(job.nodes.as_slice(), states)
    }

    /// The whole text.
    ///
    /// # Errors
    ///
    /// Only out of memory.
    pub fn finish(self) -> Result<Bytes, NoMemory>
        ensures { IfOk result (λ bytes. bytes ≡ self) }
    {
        self.sheet.finish()
    }

    // The workers of all nodes, given the counts of each.
    fn write_nodes(&mut self, nodes: &[NodeDef], states: &[Keyed]) -> Result<(), NoMemory>
        requires { length states.now ≡ worker_count nodes.now }
        ensures { OnOk result (self.new ≡
            self.old ++ records_text (nodes_count_records nodes.now states.now)) }
    {
        let mut left = states;
        for node in nodes {
            let (own, later) = left.split_at(node.journal_count() as usize);
            self.write_node(node.name.as_slice(), own)?;
            left = later;
        }
        Ok(())
    }

    // The workers of a node, given the counts of each.
    fn write_node(&mut self, node: &[u8], states: &[Keyed]) -> Result<(), NoMemory>
        ensures { OnOk result (self.new ≡
            self.old ++ records_text (node_records node.now 0 states.now)) }
    {
        for (place, state) in states.iter().enumerate() {
            self.write_state(node, place, state)?;
        }
        Ok(())
    }

    fn write_state(&mut self, node: &[u8], place: usize, state: &Keyed) -> Result<(), NoMemory>
        ensures { OnOk result (self.new ≡ self.old
            ++ records_text (map (count_record node.now place) (finite.entries state.now))) }
    {
        for (key, count) in state.iter() {
            fill(&mut self.cells, node, place, key, *count)?;
            self.sheet.write(&self.cells)?;
        }
        Ok(())
    }
}

fn fill(
    cells: &mut Cells,
    node: &[u8],
    place: usize,
    key: &[u8],
    count: i64,
) -> Result<(), NoMemory>
    ensures { OnOk result (cells.new ≡ count_record node.now place (key.now, count)) }
{
    cells.clear();
    cells.push(node)?;
    cells.push_printed(place)?;
    cells.push(key)?;
    cells.push_printed(count)
}
