// The law of a part of a stream. The function proves its clauses, and does nothing.
ghost use Rattle.std.specs.Prelude.{◌≡◌, List};
ghost use Rattle.tuple_trace.specs.declared.row.Row.{Row};
ghost use Rattle.versions.specs.declared.request.Request.{Request};
ghost use Rattle.flow_model.specs.Begin.{at_first};
ghost use Rattle.flow_model.specs.Run.{Ran};
ghost use Rattle.flow_model.specs.Setup.{setup_view};
ghost use Rattle.flow_model.specs.declared.setup.Setup.{Setup};
ghost use Rattle.stream_law.specs.Stream.{RunPart, SoFar};
ghost use Rattle.stream_step.specs.Parts.{HasRun, IsFirstRun, IsPartAfter, IsRunOn};
ghost use Rattle.stream_step.specs.declared.stream.Stream.{Stream};

use stream_law::{a_part_more_is_a_run, part_runs_are_next_parts, parts_between_rows_are_exact};

/// A part that was run from where a stream goes on is a part after all that the stream has run,
/// whatever that is. With the part, it is one run (`later`). If the stream has run nothing, the
/// part is one run (`first`). Exact borders stay exact by a part that has no row or issues no
/// request.
pub fn parts_go_on()
    ensures later { (stream : Stream) (so_far : SoFar) (requests : List Request)
        (rows : List Row) (setup : Setup) (left : Ran) → HasRun stream so_far
        → IsRunOn stream requests rows setup left
        → (part : RunPart) × IsPartAfter so_far requests rows setup left part }
    ensures first { (stream : Stream) (requests : List Request) (rows : List Row)
        (setup : Setup) (left : Ran) → stream.start ≡ at_first (setup_view stream.setup)
        → IsRunOn stream requests rows setup left → IsFirstRun requests setup rows left }
{
    part_runs_are_next_parts();
    a_part_more_is_a_run();
    parts_between_rows_are_exact();
}
