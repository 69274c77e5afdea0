// Laws of setups. Each function proves its clauses, and does nothing.
ghost use Rattle.std.specs.Prelude.{◌≡◌, ◌<◌, ◌≤◌, ℕ, IsTrue, false, Some, length, slice_get};
ghost use Rattle.flow_dag.specs.declared.edge.Edge.{Edge};
ghost use Rattle.flow_dag.specs.Masks.{has};
ghost use Rattle.jobs.specs.Job.{job_view};
ghost use Rattle.jobs.specs.Nodes.{fan_out, is_replicate, is_source_node, is_split};
ghost use Rattle.jobs.specs.Ports.{are_ports};
ghost use Rattle.jobs.specs.declared.func.NodeDef.{NodeDef as NodeIs};
ghost use Rattle.versions.specs.Judged.{AreAccepted};
ghost use Rattle.versions.specs.declared.request.Change.{Change as ChangeIs};
ghost use Rattle.flow_model.specs.Covers.{asks, covers, covers_edge, is_head};
ghost use Rattle.flow_model.specs.Lanes.{lanes_in};
ghost use Rattle.flow_model.specs.Least.{ArePlansLeast};
ghost use Rattle.flow_model.specs.Planned.{IsPlanned, copies_at};
ghost use Rattle.flow_model.specs.Requests.{change_by, changes};
ghost use Rattle.flow_model.specs.Setup.{setup_view};
ghost use Rattle.flow_model.specs.Workers.{workers_in};

use crate::Setup;
use marker_align::MAX_LANES_IN;
use operators::Job;

/// The requests of every setup are accepted when they are judged by themselves, and have the
/// planner's plans.
pub fn setups_are_planned(setup: &Setup)
    ensures accepted { AreAccepted (setup_view setup.now).job (setup_view setup.now).requests }
    ensures planned { ∥ IsPlanned (setup_view setup.now) ∥₁ }
{}

/// The plan of a request is made for every node that the request changes.
pub fn changed_nodes_are_asked(setup: &Setup)
    ensures { (request node : ℕ) → IsTrue (changes (setup_view setup.now) request node)
        → IsTrue (asks (setup_view setup.now) request node) }
{}

/// A node that a request makes a split is one of `splits`, a request makes no other node a
/// replicate, and the edges of each node stay those of its function's kind. The fan-out of a
/// request's function is at most the roof of its node.
pub fn requests_keep_kinds(setup: &Setup)
    ensures splits { (request node : ℕ) (change : ChangeIs)
        → change_by (setup_view setup.now) request node ≡ Some change
        → IsTrue (is_split change.func) → IsTrue (has (setup_view setup.now).splits node) }
    ensures copies { (request node : ℕ) (change : ChangeIs)
        → change_by (setup_view setup.now) request node ≡ Some change
        → IsTrue (is_replicate change.func) → IsTrue
        (copies_at (setup_view setup.now).job.nodes node) }
    ensures roof { (request node : ℕ) (change : ChangeIs) (def : NodeIs)
        → change_by (setup_view setup.now) request node ≡ Some change
        → slice_get (setup_view setup.now).job.nodes node ≡ Some def
        → fan_out change.func ≤ def.roof }
    ensures ports { (request node : ℕ) (change : ChangeIs)
        → change_by (setup_view setup.now) request node ≡ Some change
        → IsTrue (are_ports (setup_view setup.now).job.edges node change.func) }
{}

/// Each plan is the least cover of its members. It holds every path between members, and every
/// cover that does holds the plan.
pub fn plans_are_least(setup: &Setup)
    ensures { ArePlansLeast (setup_view setup.now) }
{}

/// A head is covered, and no covered edge leads into it.
pub fn heads_are_unentered(setup: &Setup)
    ensures covered { (request node : ℕ) → IsTrue (is_head (setup_view setup.now) request node)
        → IsTrue (covers (setup_view setup.now) request node) }
    ensures unentered { (request number : ℕ) (edge : Edge)
        → slice_get (setup_view setup.now).job.edges number ≡ Some edge
        → IsTrue (is_head (setup_view setup.now) request edge.to)
        → covers_edge (setup_view setup.now) request number ≡ false }
{}

/// No edge leads into a source.
pub fn sources_are_unentered(job: &Job)
    ensures { (number : ℕ) (edge : Edge) → slice_get (job_view job.now).edges number ≡ Some edge
        → is_source_node (slice_get (job_view job.now).nodes edge.to) ≡ false }
{}

/// At least one lane leads into each worker, and at most [`MAX_LANES_IN`] do.
pub fn workers_have_few_lanes(job: &Job)
    ensures some { (worker : ℕ) → worker < length (workers_in (job_view job.now))
        → 1 ≤ length (lanes_in (job_view job.now) worker) }
    ensures few { (worker : ℕ) → worker < length (workers_in (job_view job.now))
        → length (lanes_in (job_view job.now) worker) ≤ MAX_LANES_IN }
{}
