ghost use Rattle.std.specs.Prelude.{◌≡◌, ◌++◌, ◌∷◌, IfOk, OnOk, length};
ghost use Rattle.jobs.specs.Job.{job_view};
ghost use Rattle.jobs.specs.Nodes.{worker_count};
ghost use Rattle.sink_journal.specs.Audit.{audit as audit_of, audit_header, audit_records};
ghost use Rattle.sink_journal.specs.Audit.{nodes_records, workers_records};

use crate::piece::Piece;
use crate::pieces::Pieces;
use crate::team::Team;
use crate::text::Text;
use jobs::Job;
use keyed_state::Keyed;
use sink_journal::{Feeds, Journal, Journals, Noted, States, audit_text};
use std::alloc::Global;
use std::thread::Threads;
use tuple_trace::NoMemory;

/// What an audit is of: the parameters of `audit_text` of `sink_journal`.
#[derive(Clone, Copy)]
pub struct Audited<'a> {
    pub job: &'a Job,
    pub refused: &'a [Noted],
    pub feeds: &'a Feeds,
    pub journals: &'a Journals,
    pub states: &'a States,
}

impl<R: Threads + Sync> Team<'_, R> {
    /// The text of a run's audit, as `audit_text` of `sink_journal` returns it. The only error is
    /// out of memory.
    pub fn audit_text(&self, of: Audited<'_>) -> Result<Text, NoMemory>
        requires journals { length of.journals.now ≡ worker_count of.job.now.nodes }
        requires states { length of.states.now ≡ worker_count of.job.now.nodes }
        ensures { IfOk result (λ text. text ≡
            audit_of (job_view of.entry.job.now) of.entry.refused.now of.entry.feeds.now
            of.entry.journals.now of.entry.states.now) }
    {
        let Audited {
            job,
            refused,
            feeds,
            journals,
            states,
        } = of;
        if self.threads < 2 {
            let text = audit_text(self.alloc, job, refused, feeds, journals, states)?;
            return Text::from_bytes(self.alloc, text);
        }
        let pieces = audit_pieces(self.alloc, of)?;
        self.text_of(&pieces)
    }
}

fn audit_pieces<'a>(alloc: Global, of: Audited<'a>) -> Result<Pieces<'a>, NoMemory>
    requires journals { length of.journals.now ≡ worker_count of.job.now.nodes }
    requires states { length of.states.now ≡ worker_count of.job.now.nodes }
    ensures { IfOk result (λ pieces. pieces ≡ audit_header
        ∷ audit_records (job_view of.entry.job.now) of.entry.refused.now of.entry.feeds.now
        of.entry.journals.now of.entry.states.now) }
{
    let mut pieces = Pieces::new(alloc);
    pieces.push(Piece::AuditHeader)?;
    pieces.push(Piece::Refused(of.refused))?;
    pieces.push_feeds(of.feeds.as_slice())?;
    push_nodes(
        &mut pieces,
        of.job,
        of.journals.as_slice(),
        of.states.as_slice(),
    )?;
    Ok(pieces)
}

fn push_nodes<'a>(
    pieces: &mut Pieces<'a>,
    job: &'a Job,
    journals: &'a [Journal],
    states: &'a [Keyed],
) -> Result<(), NoMemory>
    requires journals { length journals.now ≡ worker_count job.now.nodes }
    requires states { length states.now ≡ worker_count job.now.nodes }
    ensures { OnOk result (pieces.new ≡
        pieces.old ++ nodes_records job.now.nodes journals.now states.now) }
{
    let mut journals = journals;
    let mut states = states;
    for node in job.nodes.as_slice() {
        let workers = node.journal_count() as usize;
        let (own_journals, later_journals) = journals.split_at(workers);
        let (own_states, later_states) = states.split_at(workers);
        push_node(pieces, node.name.as_slice(), own_journals, own_states)?;
        journals = later_journals;
        states = later_states;
    }
    Ok(())
}

fn push_node<'a>(
    pieces: &mut Pieces<'a>,
    node: &'a [u8],
    journals: &'a [Journal],
    states: &'a [Keyed],
) -> Result<(), NoMemory>
    requires { length states.now ≡ length journals.now }
    ensures { OnOk result (pieces.new ≡
        pieces.old ++ workers_records node.now 0 journals.now states.now) }
{
    for (place, journal) in journals.iter().enumerate() {
        let state = &states[place];
        pieces.push_steps(node, place, journal.as_slice())?;
        pieces.push(Piece::Counts { node, place, state })?;
    }
    Ok(())
}
