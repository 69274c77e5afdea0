// What turns, and other rows for requests, leave as it is. Each function proves its clause, and
// does nothing.
ghost use Rattle.std.specs.Prelude.{◌≡◌, List, map};
ghost use Rattle.versions.specs.declared.request.Request.{Request as RequestIs};
ghost use Rattle.flow_model.specs.Begin.{Begin};
ghost use Rattle.flow_model.specs.SetupView.{SetupView};
ghost use Rattle.flow_worker.specs.Worker.{WorkerIs};
ghost use Rattle.lane_core.specs.Lane.{EndpointIs, end_of};
ghost use Rattle.flow_crew.specs.Crews.{IsCrew};
ghost use Rattle.flow_crew.specs.Sides.{AreMatched, lane_ids, worker_side};

/// If no endpoint has got another lane or number, then endpoints that matched still match.
pub fn endpoints_stay_matched()
    ensures { (workers later : List WorkerIs) (outs left : List EndpointIs)
        → map lane_ids later ≡ map lane_ids workers → map end_of left ≡ map end_of outs
        → AreMatched (map worker_side workers) outs
        → AreMatched (map worker_side later) left }
{}

/// The law of a worker doesn't read the rows that the requests wait for: a crew of a setup is a
/// crew of any setup that differs in these rows alone.
pub fn workers_read_no_rows()
    ensures { (setup : SetupView) (begin : Begin) (requests : List RequestIs)
        (workers : List WorkerIs)
        → map (λ (request : RequestIs). request.changes) requests
        ≡ map (λ (request : RequestIs). request.changes) setup.requests
        → IsCrew setup begin workers
        → IsCrew (record setup { requests = requests }) begin workers }
{}
