ghost use Rattle.std.specs.Prelude.{List, ℕ, ◌≡◌, ◌++◌, ◌∷◌};
ghost use Rattle.std.specs.List.{flat_map};
ghost use Rattle.sink_journal.specs.Records.{record_text, records_text};

/// The text of records is the text of the first of them, followed by the text of the others,
/// wherever they are divided.
pub fn records_are_written_in_turn()
    ensures { (first later : List (List (List ℕ)))
        → records_text (first ++ later) ≡ records_text first ++ records_text later }
{}

/// A header's text, followed by the texts of parts, is the text of the header and of their records,
/// part by part. It holds for any number of parts.
///
/// So a file stays one text of records if its header is written once, and each part of a stream is
/// appended when it ends. `alerts_header_text` and `alerts_part_text` are an instance of this law,
/// with the records `all_alerts` of each part. `audit_header_text` and `audit_part_text` are
/// another, with the records `audit_records` of each part.
///
/// The records stand as the parts show them, one part after another. So a sink's records of a later
/// part stand after those of all sinks in an earlier part.
pub fn parts_follow_one_header()
    ensures { (header : List (List ℕ)) (parts : List (List (List (List ℕ))))
        → record_text header ++ flat_map records_text parts
        ≡ records_text (header ∷ flat_map (λ part. part) parts) }
{}
