// Laws of parts in a row. Each function proves its clauses, and does nothing.
ghost use Rattle.std.specs.Prelude.{◌++◌, ◌∷◌, IsTrue, List};
ghost use Rattle.std.specs.List.Sorted.{IsPermutation};
ghost use Rattle.cover_planner.specs.declared.cover.Plan.{Plan};
ghost use Rattle.tuple_trace.specs.declared.row.Row.{Row};
ghost use Rattle.versions.specs.declared.request.Request.{Request};
ghost use Rattle.stream_law.specs.PartRun.{IsPartRun};
ghost use Rattle.stream_law.specs.Stream.{
  AreNextParts,
  IsConsistentSoFar,
  IsNextPart,
  IsRunSoFar,
  IsSerialSoFar,
  RunPart,
  SoFar,
  alerts_in,
  parts_alerts,
  with_part,
  with_parts,
};

/// A part that goes on from where all so far has ended is one run with it.
pub fn a_part_more_is_a_run()
    ensures { (so_far : SoFar) (part : RunPart) → IsRunSoFar so_far → IsNextPart so_far part
        → IsRunSoFar (with_part so_far part) }
{}

/// Parts that go on from where all before them have ended are one run with what was run so far.
pub fn parts_in_a_row_are_a_run()
    ensures { (so_far : SoFar) (parts : List RunPart) → IsRunSoFar so_far
        → AreNextParts so_far parts → IsRunSoFar (with_parts so_far parts) }
{}

/// What a program has after it has run a part makes it a part that goes on from where all so far
/// has ended. The run of the part needs only the number of the rows so far, not the rows.
pub fn part_runs_are_next_parts()
    ensures { (so_far : SoFar) (others new : List Row) (requests : List Request)
        (plans : List Plan) (part : RunPart) → IsPartRun so_far others new requests plans part
        → IsNextPart so_far part }
{}

/// The laws of one run hold of at least one part in a row, joined with what was run so far.
///
/// Each row is consistent in it if the rows enter by sources of the job. In ordered mode rows and
/// requests have one order.
pub fn parts_keep_the_laws()
    ensures consistent { (so_far : SoFar) (part : RunPart) (later : List RunPart)
        → IsRunSoFar so_far → AreNextParts so_far (part ∷ later)
        → IsConsistentSoFar (with_parts so_far (part ∷ later)) }
    ensures serial { (so_far : SoFar) (part : RunPart) (later : List RunPart)
        → IsRunSoFar so_far → AreNextParts so_far (part ∷ later)
        → IsTrue (with_parts so_far (part ∷ later)).setup.ordered
        → IsSerialSoFar (with_parts so_far (part ∷ later)) }
{}

/// The sinks show of the joined run what they show of all so far and of each part, as a multiset.
pub fn parts_show_what_the_run_shows()
    ensures { (so_far : SoFar) (parts : List RunPart) → IsRunSoFar so_far
        → AreNextParts so_far parts → IsPermutation (alerts_in (with_parts so_far parts).ran)
        (alerts_in so_far.ran ++ parts_alerts parts) }
{}
