ghost use Rattle.std.specs.Prelude.{◌≡◌, ◌++◌, Some, IfOk, OnOk, length};
ghost use Rattle.jobs.specs.Job.{job_view};
ghost use Rattle.jobs.specs.Nodes.{worker_count};
ghost use Rattle.sink_journal.specs.Audit.{audit as audit_of, audit_header, audit_records};
ghost use Rattle.sink_journal.specs.Audit.{code_word};
ghost use Rattle.sink_journal.specs.Records.{record_text, records_text};

use crate::audit_lines::AuditLines;
use crate::{Feeds, Journals, States};
use jobs::Job;
use std::alloc::Global;
use std::fmt;
use tuple_trace::{Bytes, NoMemory};

/// A request that was refused.
#[derive(Clone, Copy, Debug, PartialEq, Eq)]
pub struct Noted {
    /// Its place in the file, from 1.
    pub place: u32,
    /// The number of the code that it is refused by: 1 for Q1, up to 10 for Q10.
    pub code: u8,
}

/// The number of a code. It prints as the code itself, such as `Q4`.
#[derive(Clone, Copy)]
pub struct RefusalCode(pub u8);

impl fmt::Display for RefusalCode {
    ghost output = { λ code. Some (code_word code.0) };

    fn fmt<W: fmt::Write>(&self, f: &mut fmt::Formatter<W>) -> fmt::Result {
        let number = self.0;
        write!(f, "Q{number}")
    }
}

/// The text of a run's audit: a header, and one record for each thing that was noted.
///
/// Every record has the fields `entry`, `node`, `worker`, `lane`, `number` and `extra`. The refused
/// requests come first, in their order, and then the steps of the feeder. Then, for each worker,
/// come its steps, and its counts in the order of their keys by bytes. Fields are quoted if they
/// need it, and a line feed ends each record.
pub fn audit_text(
    alloc: Global,
    job: &Job,
    refused: &[Noted],
    feeds: &Feeds,
    journals: &Journals,
    states: &States,
) -> Result<Bytes, NoMemory>
    requires journals { length journals.now ≡ worker_count job.now.nodes }
    requires states { length states.now ≡ worker_count job.now.nodes }
    ensures { IfOk result (λ text. text ≡
        audit_of (job_view job.now) refused.now feeds.now journals.now states.now) }
{
    let mut audit = AuditLines::new(alloc, record_count(feeds, journals));
    audit.write_header()?;
    write_records(&mut audit, job, refused, feeds, journals, states)?;
    Ok(audit.into_text())
}

/// The text of an audit's header, as [`audit_text`] begins with it.
pub fn audit_header_text(alloc: Global) -> Result<Bytes, NoMemory>
    ensures { IfOk result (λ text. text ≡ record_text audit_header) }
{
    let mut audit = AuditLines::new(alloc, 0);
    audit.write_header()?;
    Ok(audit.into_text())
}

/// The text of the audit of one part of a stream: the records of [`audit_text`] without its header.
///
/// The counts are those at the part's end. The texts of all parts, one after another, follow the
/// header of [`audit_header_text`].
pub fn audit_part_text(
    alloc: Global,
    job: &Job,
    refused: &[Noted],
    feeds: &Feeds,
    journals: &Journals,
    states: &States,
) -> Result<Bytes, NoMemory>
    requires journals { length journals.now ≡ worker_count job.now.nodes }
    requires states { length states.now ≡ worker_count job.now.nodes }
    ensures { IfOk result (λ text. text ≡ records_text
        (audit_records (job_view job.now) refused.now feeds.now journals.now states.now)) }
{
    let mut part = AuditLines::new(alloc, record_count(feeds, journals));
    write_records(&mut part, job, refused, feeds, journals, states)?;
    Ok(part.into_text())
}

// Appends the records after the header.
fn write_records(
    audit: &mut AuditLines,
    job: &Job,
    refused: &[Noted],
    feeds: &Feeds,
    journals: &Journals,
    states: &States,
) -> Result<(), NoMemory>
    requires journals { length journals.now ≡ worker_count job.now.nodes }
    requires states { length states.now ≡ worker_count job.now.nodes }
    ensures { OnOk result (audit.new ≡ audit.old ++ records_text
        (audit_records (job_view job.now) refused.now feeds.now journals.now states.now)) }
{
    audit.write_refused(refused)?;
    audit.write_feeds(feeds.as_slice())?;
    let mut journals = journals.as_slice();
    let mut states = states.as_slice();
    for node in job.nodes.as_slice() {
        let workers = node.journal_count() as usize;
        let (own_journals, later_journals) = journals.split_at(workers);
        let (own_states, later_states) = states.split_at(workers);
        audit.write_node(node.name.as_slice(), own_journals, own_states)?;
        journals = later_journals;
        states = later_states;
    }
    Ok(())
}

// How many records the audit of this feed and these journals has, counts and refusals left out.
fn record_count(feeds: &Feeds, journals: &Journals) -> usize {
    let mut count = feeds.len();
    for journal in journals {
        count = count.saturating_add(journal.len());
    }
    count
}
