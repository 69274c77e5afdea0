ghost use Rattle.std.specs.Prelude.{◌≡◌, ℕ, List, Option};
ghost use Rattle.jobs.specs.JobView.{JobView};
ghost use Rattle.versions.specs.Judged.{AreAccepted, NameNodes, judged_within};
ghost use Rattle.versions.specs.Waiting.{changes_of};
ghost use Rattle.versions.specs.Kept.{AreInOrder, CarryWell, KeepKinds};
ghost use Rattle.versions.specs.declared.request.Request.{Request as RequestIs};

/// Where judging a list of requests refuses none of them, each of their changes names a node of the
/// job.
pub fn accepted_requests_name_nodes()
    ensures { (job : JobView) (requests : List RequestIs) → AreAccepted job requests
        → NameNodes job requests }
{}

/// The accepted requests of a judged list, judged by themselves, are all accepted. So are those of
/// a list that was judged with a mask of the nodes that may be splits.
pub fn accepted_requests_stay_accepted()
    ensures { (splits : Option ℕ) (job : JobView) (requests : List RequestIs)
        → AreAccepted job (judged_within splits job requests).accepted }
{}

/// If judging a list of requests refuses none of them, requests with the same changes are accepted
/// too, whichever rows they wait for in their order.
pub fn accepted_requests_may_wait()
    ensures { (job : JobView) (requests others : List RequestIs) → AreAccepted job requests
        → changes_of others ≡ changes_of requests → AreInOrder 0 others
        → AreAccepted job others }
{}

/// If judging a list of requests refuses none of them, each of their functions may replace the one
/// that the job gives the node. It is of its kind and counts by the same key, or both are free
/// kinds and one edge leaves the node. Its fan-out is at most the node's roof. So no source, sink
/// or replicate is changed.
pub fn accepted_requests_keep_kinds()
    ensures { (job : JobView) (requests : List RequestIs) → AreAccepted job requests
        → KeepKinds job requests }
{}

/// None of them waits for an earlier row than the one before it.
pub fn accepted_requests_are_in_order()
    ensures { (job : JobView) (requests : List RequestIs) → AreAccepted job requests
        → AreInOrder 0 requests }
{}

/// None of their changes divides counts by less than 1.
pub fn accepted_requests_carry_well()
    ensures { (job : JobView) (requests : List RequestIs) → AreAccepted job requests
        → CarryWell requests }
{}
