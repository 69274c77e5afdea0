// The fifth pass: each journal is restored, worker after worker, in the order of the graph.
ghost use Rattle.std.specs.Prelude.{◌≡◌, IfErr, IfOk, OnOk, length};
ghost use Rattle.jobs.specs.Nodes.{AreFromSources};
ghost use Rattle.flow_model.specs.Lanes.{lanes};
ghost use Rattle.flow_model.specs.Setup.{setup_view};
ghost use Rattle.flow_model.specs.SetupWorker.{setup_here};
ghost use Rattle.flow_model.specs.Workers.{workers_in};
ghost use Rattle.audit_laws.specs.Delivered.{feed_of};
ghost use Rattle.audit_laws.specs.Faults.{AreTrimmedFinished};
ghost use Rattle.audit_restore.specs.Restored.{AllRestored, IsFaultOfLanes, TookAndMade};

use crate::feed::fed_lanes;
use crate::lanes::check_lanes;
use crate::order::workers_in_order;
use crate::sending::send;
use crate::standing::Standing;
use crate::taking::take_all;
use audit_fault::AuditFault;
use audit_laws::AuditEntry;
use flow_model::{Setup, SetupWorker, Start};
use flow_replay::{Replayed, replay};
use keyed_state::Keyed;
use sink_journal::{Feed, Journal, Journals, States};
use std::alloc::Global;
use tuple_trace::{Items, NoMemory, Rows};

/// The journals as far as they are restored, and the counts of their replays.
#[derive(Drop)]
pub(crate) struct Restored {
    pub(crate) journals: Journals,
    pub(crate) states: States,
}

/// Restores the journals from the trimmed ones, from a start on.
///
/// # Errors
///
/// The least lane that differs, of the first worker that has one, or out of memory.
pub(crate) fn restore(
    alloc: Global,
    setup: &Setup,
    start: &Start,
    rows: &Rows,
    feeds: &[Feed],
    audit: &[Items<AuditEntry>],
) -> Result<Restored, AuditFault>
    requires sources { AreFromSources (setup_view setup.now).job rows.now }
    requires starts { length start.now.states ≡ length (workers_in (setup_view setup.now).job) }
    requires feeds { feeds.now ≡ feed_of start.now (setup_view setup.now) rows.now }
    requires long { length audit.now ≡ length (workers_in (setup_view setup.now).job) }
    requires finished { AreTrimmedFinished start.now (setup_view setup.now) rows.now audit.now }
    ensures ok { IfOk result (λ restored. AllRestored start.now (setup_view setup.now) rows.now
        audit.now restored.journals restored.states) }
    ensures fault { IfErr result (IsFaultOfLanes start.now (setup_view setup.now)
        setup.now.job.dag.order rows.now audit.now) }
{
    let mut standing = fed_lanes(alloc, setup, start, rows, feeds)?;
    let mut restored = Restored::empty(alloc, setup)?;
    let order = workers_in_order(alloc, setup)?;
    for worker in order.as_slice() {
        let journal = audit[*worker as usize].as_slice();
        let who = SetupWorker {
            setup,
            number: *worker,
        };
        check_lanes(alloc, who, &standing, journal)?;
        restored.add(alloc, start, who, &mut standing, journal)?;
    }
    Ok(restored)
}

impl Restored {
    fn empty(alloc: Global, setup: &Setup) -> Result<Restored, NoMemory>
        ensures journals { IfOk result (λ restored. length restored.journals
            ≡ length (workers_in (setup_view setup.now).job)) }
        ensures states { IfOk result (λ restored. length restored.states
            ≡ length (workers_in (setup_view setup.now).job)) }
    {
        let mut journals = Journals::new(alloc);
        let mut states = States::new(alloc);
        for _worker in 0..setup.workers() {
            journals.push(Journal::new(alloc))?;
            states.push(Keyed::new(alloc))?;
        }
        Ok(Restored { journals, states })
    }

    // Restores the journal of a worker, and puts what it sends on its lanes out.
    fn add(
        &mut self,
        alloc: Global,
        start: &Start,
        who: SetupWorker<'_>,
        standing: &mut Standing,
        journal: &[AuditEntry],
    ) -> Result<(), NoMemory>
        requires starts { length start.now.states ≡ length (workers_in (setup_here who).job) }
        requires journals { length self.old.journals ≡ length (workers_in (setup_here who).job) }
        requires states { length self.old.states ≡ length (workers_in (setup_here who).job) }
        requires lanes { length standing.old ≡ length (lanes (setup_here who).job) }
        ensures { OnOk result (TookAndMade start.now (setup_here who.entry) who.entry.number
            journal.now self.old self.new standing.old standing.new) }
    {
        let journal = take_all(alloc, standing, journal)?;
        let Replayed { state, sent } = replay(alloc, start, who, &journal)?;
        send(who, standing, sent);
        self.journals.set(who.number as usize, journal);
        self.states.set(who.number as usize, state);
        Ok(())
    }
}
