// Laws of plans and of setups. Each function proves its clause. Only one does anything: it looks at
// each plan, whose type says how many nodes it numbers.
ghost use Rattle.std.specs.Prelude.{◌≡◌, ℕ, All, List, length};
ghost use Rattle.cover_planner.specs.Plan.{IsPlan};
ghost use Rattle.cover_planner.specs.declared.cover.Plan.{Plan as PlanIs};
ghost use Rattle.flow_dag.specs.Masks.{Has};
ghost use Rattle.flow_dag.specs.declared.edge.Edge.{Edge};
ghost use Rattle.flow_model.specs.Setup.{setup_view};
ghost use Rattle.flow_model.specs.SetupView.{SetupView};
ghost use Rattle.flow_laws.specs.Determined.{HasExactPlans, NumbersAllNodes};

use cover_planner::Plan;
use flow_dag::MAX_NODES;
use flow_model::Setup;

/// There is one plan for a graph, the asked nodes, and the masks of the nodes that make several
/// tuples of one: two plans that are what the planner promises for these are equal.
pub fn plans_are_determined()
    ensures { (edges : List Edge) (splits copies asked : ℕ) (first second : PlanIs) →
        NumbersAllNodes first → NumbersAllNodes second →
        IsPlan edges (Has splits) (Has copies) asked first →
        IsPlan edges (Has splits) (Has copies) asked second → first ≡ second }
{}

/// There is one setup for a job, accepted requests and a mode: two that have exactly the planner's
/// plans for these are equal.
pub fn setups_are_determined()
    ensures { (first second : SetupView) → first.job ≡ second.job →
        first.requests ≡ second.requests → first.ordered ≡ second.ordered →
        HasExactPlans first → HasExactPlans second → first ≡ second }
{}

/// Each plan of a setup has a number for each of 64 nodes, as its type does.
pub fn plans_number_all_nodes(setup: &Setup)
    ensures { All NumbersAllNodes (setup_view setup.now).plans }
{
    number_all_nodes(setup.plans.as_slice());
}

fn number_all_nodes(plans: &[Plan])
    ensures { All NumbersAllNodes plans.now }
{
    for plan in plans {
        has_all_numbers(&plan.part);
    }
}

fn has_all_numbers(part: &[u8; MAX_NODES])
    ensures { length part.now ≡ MAX_NODES }
{}
