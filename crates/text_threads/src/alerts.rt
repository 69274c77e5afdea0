ghost use Rattle.std.specs.Prelude.{◌≡◌, ◌++◌, ◌∷◌, IfOk, OnOk, length};
ghost use Rattle.jobs.specs.Job.{job_view};
ghost use Rattle.jobs.specs.Nodes.{worker_count};
ghost use Rattle.sink_journal.specs.Alerts.{alerts, all_alerts, header, node_alerts};

use crate::piece::Piece;
use crate::pieces::Pieces;
use crate::team::Team;
use crate::text::Text;
use jobs::{Column, Func, Job, NodeDef};
use sink_journal::{Journal, Journals, alerts_text};
use std::alloc::Global;
use std::thread::Threads;
use tuple_trace::NoMemory;

impl<R: Threads + Sync> Team<'_, R> {
    /// The text of what reached the sinks, as `alerts_text` of `sink_journal` returns it. The only
    /// error is out of memory.
    pub fn alerts_text(&self, job: &Job, journals: &Journals) -> Result<Text, NoMemory>
        requires { length journals.now ≡ worker_count job.now.nodes }
        ensures { IfOk result (λ text. text ≡ alerts (job_view job.now) journals.now) }
    {
        if self.threads < 2 {
            return Text::from_bytes(self.alloc, alerts_text(self.alloc, job, journals)?);
        }
        let pieces = alerts_pieces(self.alloc, job, journals)?;
        self.text_of(&pieces)
    }
}

fn alerts_pieces<'a>(
    alloc: Global,
    job: &'a Job,
    journals: &'a Journals,
) -> Result<Pieces<'a>, NoMemory>
    requires { length journals.now ≡ worker_count job.now.nodes }
    ensures { IfOk result (λ pieces. pieces ≡ header job.now.columns
        ∷ all_alerts job.now.columns job.now.nodes journals.now) }
{
    let mut pieces = Pieces::new(alloc);
    pieces.push(Piece::AlertsHeader(job))?;
    let columns = job.columns.as_slice();
    let mut rest = journals.as_slice();
    for node in job.nodes.as_slice() {
        let (own, later) = rest.split_at(node.journal_count() as usize);
        push_node(&mut pieces, columns, node, own)?;
        rest = later;
    }
    Ok(pieces)
}

fn push_node<'a>(
    pieces: &mut Pieces<'a>,
    columns: &'a [Column],
    node: &'a NodeDef,
    journals: &'a [Journal],
) -> Result<(), NoMemory>
    ensures { OnOk result (pieces.new ≡
        pieces.old ++ node_alerts columns.now node.now journals.now) }
{
    if let Func::Sink(listed) = &node.func {
        let name = node.name.as_slice();
        for journal in journals {
            pieces.push_shown(columns, name, listed.as_slice(), journal.as_slice())?;
        }
    }
    Ok(())
}
