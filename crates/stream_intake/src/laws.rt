// The law of a stream's savepoint. The function proves its clauses, and does nothing.
ghost use Rattle.std.specs.Prelude.{◌≡◌, ℕ, List, drop, length, take};
ghost use Rattle.jobs.specs.declared.func.NodeDef.{NodeDef};
ghost use Rattle.versions.specs.declared.request.Request.{Request};
ghost use Rattle.flow_model.specs.Requests.{afters};
ghost use Rattle.flow_model.specs.Waiting.{with_afters};
ghost use Rattle.stream_intake.specs.Intake.{IsKnownTo, IsMaskOfNodes, judged_in};
ghost use Rattle.stream_step.specs.declared.stream.Stream.{Stream};

/// A savepoint that has the rows for which a stream's requests wait is enough to find what the
/// stream had of its known requests: those that were taken into parts, with their rows (`issued`),
/// and the pending ones (`pending`). A job has one mask (`one_mask`), so they are judged alike.
pub fn saved_streams_go_on()
    ensures issued { (stream : Stream) (known : List Request) → IsKnownTo known stream
        → with_afters (afters stream.setup.judged.accepted)
        (take (length stream.setup.judged.accepted) (judged_in stream known).accepted)
        ≡ stream.setup.judged.accepted }
    ensures pending { (stream : Stream) (known : List Request) → IsKnownTo known stream
        → drop (length stream.setup.judged.accepted) (judged_in stream known).accepted
        ≡ stream.pending }
    ensures one_mask { (nodes : List NodeDef) (first second : ℕ) → IsMaskOfNodes nodes first
        → IsMaskOfNodes nodes second → first ≡ second }
{}
