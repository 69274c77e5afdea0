// Laws of audits that are cut into parts. Each function proves its clauses, and does nothing.
ghost use Rattle.std.specs.Prelude.{◌≡◌, ◌≢◌, ◌++◌, [], ℕ, All, List, Some};
ghost use Rattle.std.specs.List.{flat_map};
ghost use Rattle.csv.specs.Reading.{default_config, records as records_of, strip_bom};
ghost use Rattle.jobs.specs.JobView.{JobView};
ghost use Rattle.sink_journal.specs.Audit.{audit_header};
ghost use Rattle.sink_journal.specs.Records.{record_text, records_text};
ghost use Rattle.audit_parts.specs.Cut.{HasNoBorder, HaveBorders, IsPartRecords, cut_parts};
ghost use Rattle.audit_parts.specs.Cut.{parts_of};

/// The parts, one after another, are the records that were cut, and no part is empty.
pub fn parts_join_to_the_records()
    ensures joined { (records : List (List (List ℕ)))
        → flat_map (λ part. part) (cut_parts records) ≡ records }
    ensures some { (records : List (List (List ℕ)))
        → All (λ part. part ≢ []) (cut_parts records) }
{}

/// The records are cut at each border, and nowhere else: no border stands inside a part, and one
/// stands between any two parts that are neighbours.
pub fn parts_are_cut_at_borders()
    ensures inside { (records : List (List (List ℕ))) → All HasNoBorder (cut_parts records) }
    ensures between { (records : List (List (List ℕ))) → HaveBorders (cut_parts records) }
{}

/// The records of parts, one after another, are cut into just these parts.
pub fn written_parts_are_found()
    ensures { (job : JobView) (parts : List (List (List (List ℕ))))
        → All (IsPartRecords job) parts
        → cut_parts (flat_map (λ part. part) parts) ≡ parts }
{}

/// The text that a stream writes, the header and then the texts of its parts, is read as these
/// parts.
pub fn written_streams_are_read()
    ensures { (job : JobView) (parts : List (List (List (List ℕ))))
        → All (IsPartRecords job) parts
        → parts_of (records_of default_config
        (strip_bom (record_text audit_header ++ flat_map records_text parts))) ≡ Some parts }
{}
