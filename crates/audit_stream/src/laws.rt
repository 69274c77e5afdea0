// Laws of the audits of streams. Each function proves its clauses from the definitions, and does
// nothing.
ghost use Rattle.std.specs.Prelude.{◌≡◌, ◌∷◌, ◌++◌, All, List};
ghost use Rattle.jobs.specs.Job.{job_view};
ghost use Rattle.sink_journal.specs.Audit.{audit_header};
ghost use Rattle.audit_stream.specs.Together.{together};
ghost use Rattle.audit_stream.specs.Told.{IsEarlier, IsLast, PartTold, part_records, parts_records};
ghost use Rattle.audit_stream.specs.Told.{told_in_all};

use jobs::Job;

/// The records of all parts of a stream, one part after another, are put together to those of the
/// parts as one run.
///
/// Of the feeds only the last has a stop then, and of the journals only the last have ends. Nothing
/// is counted in the earlier parts.
pub fn parts_are_put_together(job: &Job)
    ensures { (earlier : List PartTold) (last : PartTold) →
        All (IsEarlier (job_view job.now)) earlier → IsLast (job_view job.now) last →
        together (job_view job.now) (audit_header ∷ (parts_records (job_view job.now) earlier
        ++ part_records (job_view job.now) last))
        ≡ audit_header ∷ part_records (job_view job.now) (told_in_all earlier last) }
{}
