// A worked savepoint of a stream. The function proves what its clauses say and does nothing.
ghost use Rattle.std.specs.Prelude.{◌≡◌, ◌∷◌, [], Ok, Err, codes};
ghost use Rattle.savepoint.specs.TwoHalves.{saved_count, tallied};
ghost use Rattle.stream_save.specs.SavedStream.{
  half_records,
  half_saved,
  saved_wait,
  stream_first,
};
ghost use Rattle.stream_save.specs.StreamReading.{stream_save_in};
ghost use Rattle.stream_save.specs.declared.fault.StreamSaveFault.TheVariants as fault;

/// The records of a worked savepoint are read as that savepoint.
///
/// A fault comes of a wait that is missing, has another number or is too many, of one above the row
/// or out of order, of a key that stands twice, and of no record at all.
pub fn saved_streams_are_read()
    ensures read { stream_save_in tallied half_records ≡ Ok half_saved }
    ensures missing { stream_save_in tallied (stream_first (codes "1") (codes "1") ∷ [])
        ≡ Err (fault.Shape 1) }
    ensures number { stream_save_in tallied
        (stream_first (codes "1") (codes "1") ∷ saved_wait (codes "2") (codes "1") ∷ [])
        ≡ Err (fault.Shape 1) }
    ensures turned { stream_save_in tallied
        (stream_first (codes "1") (codes "0") ∷ saved_wait (codes "1") (codes "1") ∷ [])
        ≡ Err (fault.Shape 1) }
    ensures above { stream_save_in tallied
        (stream_first (codes "1") (codes "1") ∷ saved_wait (codes "1") (codes "2") ∷ [])
        ≡ Err (fault.Count 1) }
    ensures order { stream_save_in tallied
        (stream_first (codes "9") (codes "2")
        ∷ saved_wait (codes "1") (codes "7") ∷ saved_wait (codes "2") (codes "6") ∷ [])
        ≡ Err (fault.Count 2) }
    ensures twice { stream_save_in tallied
        (stream_first (codes "1") (codes "1") ∷ saved_wait (codes "1") (codes "1")
        ∷ saved_count (codes "ann") (codes "1") ∷ saved_count (codes "ann") (codes "2") ∷ [])
        ≡ Err (fault.State 3) }
    ensures none { stream_save_in tallied [] ≡ Err (fault.Shape 0) }
{}
