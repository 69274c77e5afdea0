ghost use Rattle.std.specs.Prelude.{◌≡◌, length};
ghost use Rattle.jobs.specs.Law.{IsLawful};
ghost use Rattle.jobs.specs.JobView.{job_view_as};

use crate::{ColumnDefs, NodeDefs, Tables};
use flow_dag::Dag;

/// A job. Its type keeps that it is lawful.
#[derive(Drop)]
pub struct Job {
    pub columns: ColumnDefs,
    pub nodes: NodeDefs,
    pub dag: Dag,
    pub tables: Tables,
    ghost drawn: { dag.nodes ≡ length nodes },
    ghost lawful: { IsLawful (job_view_as columns nodes dag.edges tables) },
}
