// Laws of borders in a run in parts. The functions prove their clauses, and do nothing.
ghost use Rattle.std.specs.Prelude.{◌≡◌, ◌⊎◌, ◌<◌, ◌≤◌, ℕ, List, [], length};
ghost use Rattle.tuple_trace.specs.declared.row.Row.{Row};
ghost use Rattle.flow_model.specs.Run.{IsRun, Ran};
ghost use Rattle.flow_model.specs.Setup.{setup_view};
ghost use Rattle.flow_model.specs.declared.setup.Setup.{Setup};
ghost use Rattle.stream_law.specs.Stream.{IsNextPart, IsRunSoFar, RunPart, SoFar, with_part};
ghost use Rattle.stream_law.specs.Border.{AreExactAfter, IsBorder};

/// A part without a row sets the border of each request that it issues: the last row so far.
///
/// A request that had a border before a part has it with the part too, whatever the part is
/// (`kept`). A run without a row sets the border 0, before all rows (`first`).
pub fn parts_without_rows_set_borders()
    ensures anew { (so_far : SoFar) (part : RunPart) → IsRunSoFar so_far → IsNextPart so_far part
        → length part.rows ≡ length so_far.rows → (request : ℕ)
        → length so_far.setup.requests < request
        → IsBorder (with_part so_far part).ran request (length so_far.rows) }
    ensures kept { (so_far : SoFar) (part : RunPart) (request border : ℕ) → IsRunSoFar so_far
        → IsNextPart so_far part → request ≤ length so_far.setup.requests
        → border ≤ length so_far.rows → IsBorder so_far.ran request border
        → IsBorder (with_part so_far part).ran request border }
    ensures first { (setup : Setup) (ran : Ran) → IsRun (setup_view setup) [] ran
        → (request : ℕ) → IsBorder ran request 0 }
{}

/// Parts that issue requests only where they have no row keep exact borders: each request has its
/// border at the row for which it waits, or at the last row of the run if that comes before.
///
/// `first` is a run from the start: it has no row or no request. `next` is a part after all so far:
/// it has no row beyond those, or no request. Of requests that were issued before, nothing is
/// claimed (`none`).
pub fn parts_between_rows_are_exact()
    ensures first { (setup : Setup) (rows : List Row) (ran : Ran)
        → IsRun (setup_view setup) rows ran
        → (rows ≡ []) ⊎ ((setup_view setup).requests ≡ [])
        → AreExactAfter 0 (record { setup = setup_view setup; rows = rows; ran = ran }) }
    ensures next { (base : ℕ) (so_far : SoFar) (part : RunPart) → IsRunSoFar so_far
        → IsNextPart so_far part
        → (length part.rows ≡ length so_far.rows)
        ⊎ (length (setup_view part.setup).requests ≡ length so_far.setup.requests)
        → AreExactAfter base so_far → AreExactAfter base (with_part so_far part) }
    ensures none { (so_far : SoFar) → AreExactAfter (length so_far.setup.requests) so_far }
{}
