// Laws of requests that are appended. Each function proves its clauses, and does nothing.
ghost use Rattle.std.specs.Prelude.{◌≡◌, ◌++◌, ℕ, IsTrue, List, Option, Some, length};
ghost use Rattle.cover_planner.specs.declared.cover.Plan.{Plan};
ghost use Rattle.flow_dag.specs.Masks.{Has};
ghost use Rattle.jobs.specs.JobView.{JobView};
ghost use Rattle.versions.specs.Judged.{judged, judged_within};
ghost use Rattle.versions.specs.declared.request.Request.{Request};
ghost use Rattle.flow_model.specs.Planned.{extended, is_made_split};
ghost use Rattle.flow_model.specs.SetupView.{SetupView};
ghost use Rattle.savepoint.specs.Parts.{first_of};
ghost use Rattle.stream_law.specs.Later.{IsJudgedPrefix};

/// Appended requests change nothing in how the earlier ones are judged, with any mask of the nodes
/// that may be splits or with none.
pub fn later_requests_are_judged_later()
    ensures { (splits : Option ℕ) (job : JobView) (earlier later : List Request)
        → IsJudgedPrefix (judged_within splits job earlier)
        (judged_within splits job (earlier ++ later)) }
{}

/// A list that is judged before there is a mask is judged in the same way with one, if the mask
/// holds each node that the accepted requests make a split.
pub fn first_readings_are_judged_alike()
    ensures { (splits : ℕ) (job : JobView) (requests : List Request)
        → ((node : ℕ) → IsTrue (is_made_split (judged job requests).accepted node)
        → Has splits node) → judged_within (Some splits) job requests ≡ judged job requests }
{}

/// Requests that are accepted with a mask make splits only of its nodes.
pub fn accepted_requests_split_within()
    ensures { (splits : ℕ) (job : JobView) (requests : List Request) (node : ℕ)
        → IsTrue (is_made_split (judged_within (Some splits) job requests).accepted node)
        → Has splits node }
{}

/// A setup that is followed by later requests begins with the setup as it was.
pub fn later_requests_extend_a_setup()
    ensures { (setup : SetupView) (requests : List Request) (plans : List Plan)
        → length setup.plans ≡ length setup.requests
        → first_of (extended setup requests plans) (length setup.requests) ≡ setup }
{}
