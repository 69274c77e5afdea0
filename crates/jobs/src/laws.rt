// Laws of jobs: each stands in the contract of a function that does nothing.
ghost use Rattle.std.specs.Prelude.{◌≡◌, ◌≤◌, Some};
ghost use Rattle.jobs.specs.Fits.{fits};
ghost use Rattle.jobs.specs.Job.{job_view};
ghost use Rattle.jobs.specs.Kinds.{kind_named, row_of};
ghost use Rattle.jobs.specs.Tests.{row_of_test, test_named};
ghost use Rattle.jobs.specs.declared.func.Test.{Test as TestIs};
ghost use Rattle.jobs.specs.declared.kind.Kind.{Kind as KindIs};
ghost use Rattle.jobs.specs.Law.{Excludes, HaveOneFault};
ghost use Rattle.jobs.specs.Nodes.{fan_out, most_roof};
ghost use Rattle.jobs.specs.Places.{Each, EachPasses};
ghost use Rattle.jobs.specs.Ports.{out_count};
ghost use Rattle.jobs.specs.Weights.{HasSettledWeights};

use crate::Job;

/// No job is both lawful and refused, out of memory aside.
pub fn refused_is_unlawful()
    ensures { Excludes }
{}

/// A job is refused for one fault alone, out of memory aside: no two faults are said of the same
/// parts.
pub fn jobs_have_one_fault()
    ensures { HaveOneFault }
{}

/// In every job a source weighs 1, and any other node the sum over its edges in, of the sender's
/// weight times the sender's roof, cut.
pub fn weights_settle(job: &Job)
    ensures { HasSettledWeights (job_view job.now) }
{}

/// The function of each node of a job fits.
pub fn functions_fit(job: &Job)
    ensures { EachPasses (λ _ node. fits (job_view job.now) node.func) job.now.nodes }
{}

/// The roof of each node of a job is at least the fan-out of its own function, and at most 16. It
/// is 1 at a node whose kind can't change, as at a filter that two edges leave.
pub fn roofs_hold(job: &Job)
    ensures covers { Each (λ _ node. fan_out node.func ≤ node.roof) job.now.nodes }
    ensures limit { Each (λ v node. node.roof ≤ most_roof node.func (out_count job.now.dag.edges v))
        job.now.nodes }
{}

/// Each kind is found by its name, and each test by its word: no name stands for two of them.
pub fn names_tell_kinds()
    ensures kinds { (kind : KindIs) → kind_named (row_of kind).name ≡ Some kind }
    ensures tests { (test : TestIs) → test_named (row_of_test test).word ≡ Some test }
{}
