// Laws of the rows of a stream. Each function proves its clauses, and does nothing.
ghost use Rattle.std.specs.Prelude.{◌≡◌, ◌++◌, ◌<◌, ◌+◌, ℕ, List, None, Ok, length};
ghost use Rattle.csv.specs.Reading.{default_config, records, strip_bom};
ghost use Rattle.input_pieces.specs.Cut.{IsCut};
ghost use Rattle.jobs.specs.JobView.{JobView};
ghost use Rattle.payments.specs.Reading.{rows_of};
ghost use Rattle.tuple_trace.specs.declared.row.Row.{Row};
ghost use Rattle.stream_rows.specs.Rows.{and_then, sound_rows, stream_rows};

/// The rows of a text that is cut between records are followed by those of the text after it, if
/// the header was read and there was no fault. Before the text any number of rows was skipped.
pub fn rows_of_pieces_go_on()
    ensures { (job : JobView) (skipped : ℕ) (before piece : List ℕ) → IsCut default_config before
        → (stream_rows job skipped before).fault ≡ None
        → 0 < length (records default_config (strip_bom before))
        → stream_rows job skipped (before ++ piece)
        ≡ and_then (stream_rows job skipped before).rows
        (sound_rows job (skipped + length (stream_rows job skipped before).rows + 1)
        (records default_config piece)) }
{}

/// Two texts that are cut between records are cut as one.
pub fn cut_texts_join()
    ensures { (before piece : List ℕ) → IsCut default_config before → IsCut default_config piece
        → IsCut default_config (before ++ piece) }
{}

/// A file that is read without a fault has the rows of a stream with its text, which has no fault
/// either.
pub fn files_are_streams()
    ensures { (job : JobView) (text : List ℕ) (rows : List Row) → rows_of job text ≡ Ok rows
        → stream_rows job 0 text ≡ record { rows = rows; fault = None } }
{}
