// Worked audits. Each function proves its clauses, and does nothing.
ghost use Rattle.std.specs.Prelude.{◌≡◌};
ghost use Rattle.audit_laws.specs.Examples.{audit_of_none, records_of_none};

/// The audit of a run without payments has a header, the end of the feed, and an end at each
/// worker.
pub fn the_audit_of_no_payments()
    ensures { audit_of_none ≡ records_of_none }
{}
