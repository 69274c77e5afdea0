ghost use Rattle.std.specs.Prelude.{◌≡◌, ℕ, ◌<◌, ◌^◌};
ghost use Rattle.flow_dag.specs.Masks.{Has};
ghost use Rattle.cover_planner.specs.Plan.{IsCover, IsPlan, HasAllPaths, IsLeast};

use crate::cover::Plan;
use crate::{edges, members, nodes, parts};
use flow_dag::Dag;

/// The plan of a change of the nodes `asked`, where those of `splits` may make pieces of a tuple,
/// and those of `copies` send a copy of it along each of their edges.
///
/// Every node of `splits` above an asked one is covered along with the asked ones, and every node
/// of `copies` whose copies come to asked nodes along two edges or more. So all that such a node
/// makes of one tuple meets the same side of the change. With no asked node the plan is empty.
pub fn plan(dag: &Dag, splits: u64, copies: u64, asked: u64) -> Plan
    requires asked { asked < 2 ^ dag.now.nodes }
    requires splits { splits < 2 ^ dag.now.nodes }
    requires copies { copies < 2 ^ dag.now.nodes }
    ensures plan { IsPlan dag.now.edges (Has splits) (Has copies) asked result }
    ensures paths { HasAllPaths dag.now.edges result }
    ensures least { IsLeast dag.now.edges result }
{
    cover(dag, asked, members::members(dag, splits, copies, asked))
}

/// The plan that has the cover of these members.
fn cover(dag: &Dag, asked: u64, members: u64) -> Plan
    requires { (m : ℕ) → Has members m → m < dag.now.nodes }
    ensures asked { result.asked ≡ asked }
    ensures members { result.members ≡ members }
    ensures cover { IsCover dag.now.edges result }
{
    let children = edges::covered_children(dag, members);
    let parents = flow_dag::transposed(&children);
    let joined = edges::either_way(&children, &parents);
    let nodes = nodes::covered_nodes(members, &joined);
    Plan {
        asked,
        members,
        nodes,
        edges: edges::marked(dag, &children),
        heads: nodes::not_entered(nodes, &parents),
        part: parts::numbered(nodes, &joined),
    }
}
