// The one way to a job: its parts are checked.
ghost use Rattle.std.specs.Prelude.{◌≡◌, ◌≤◌, IfOk, IfErr, OnOk, length};
ghost use Rattle.jobs.specs.Job.{job_view};
ghost use Rattle.jobs.specs.Law.{HasColumns, HasNoCycle, HasShape, HasTables, IsLawful, IsRefused};
ghost use Rattle.jobs.specs.Weights.{weight};
ghost use Rattle.jobs.specs.JobView.{job_view_as};

use crate::{
    Column, ColumnDefs, Job, LawFault, MAX_WEIGHT, Named, NodeDef, NodeDefs, Table, Tables,
    fitting, limits, names, ports, weights,
};
use flow_dag::{Dag, DagFault, Edge};
use std::alloc::Global;

impl Job {
    /// The job of these parts, if it is lawful.
    ///
    /// # Errors
    ///
    /// The faults are looked for in the order of [`LawFault`], sizes in the order of their limits,
    /// and everything else in the order of its places; the first that stands is answered. A cycle
    /// is named by its least node. [`LawFault::NoMemory`] may come of any parts.
    pub fn check(
        alloc: Global,
        columns: ColumnDefs,
        nodes: NodeDefs,
        edges: &[Edge],
        tables: Tables,
    ) -> Result<Job, LawFault>
        ensures job { IfOk result (λ job. job_view job
            ≡ job_view_as columns nodes edges.now tables) }
        ensures fault { IfErr result (λ fault. IsRefused fault
            (job_view_as columns nodes edges.now tables)) }
    {
        let dag = dag_of(
            alloc,
            columns.as_slice(),
            nodes.as_slice(),
            edges,
            tables.as_slice(),
        )?;
        Ok(Job {
            columns,
            nodes,
            dag,
            tables,
        })
    }
}

// The graph of these parts, if they make a lawful job.
fn dag_of(
    alloc: Global,
    columns: &[Column],
    nodes: &[NodeDef],
    edges: &[Edge],
    tables: &[Table],
) -> Result<Dag, LawFault>
    ensures graph { IfOk result (λ dag. (dag.nodes ≡ length nodes.now) × (dag.edges ≡ edges.now)) }
    ensures lawful { IfOk result (λ dag.
        IsLawful (job_view_as columns.now nodes.now dag.edges tables.now)) }
    ensures fault { IfErr result (λ fault. IsRefused fault
        (job_view_as columns.now nodes.now edges.now tables.now)) }
{
    check_shape(columns, nodes, edges, tables)?;
    let dag = match Dag::check(alloc, nodes.len() as u32, edges) {
        Ok(dag) => dag,
        Err(DagFault::Cycle(v)) => return Err(LawFault::Cycle(v)),
        Err(DagFault::NoMemory) => return Err(LawFault::NoMemory),
        Err(DagFault::NodeRange(_)) => unreachable!(),
        Err(DagFault::Repeated(_)) => unreachable!(),
    };
    check_meaning(columns, nodes, &dag, tables)?;
    Ok(dag)
}

// Refuses sizes, names and edges that aren't as they have to be.
fn check_shape(
    columns: &[Column],
    nodes: &[NodeDef],
    edges: &[Edge],
    tables: &[Table],
) -> Result<(), LawFault>
    ensures shape { OnOk result (HasShape (job_view_as columns.now nodes.now edges.now
        tables.now)) }
    ensures fault { IfErr result (λ fault. IsRefused fault
        (job_view_as columns.now nodes.now edges.now tables.now)) }
{
    if let Some((which, number)) = limits::first_size_fault(columns, nodes, edges, tables) {
        return Err(LawFault::Limit(which, number));
    }
    if let Some(i) = names::repeated_column(columns) {
        return Err(LawFault::NameTwice(Named::Column, i));
    }
    if let Some(i) = names::repeated_node(nodes) {
        return Err(LawFault::NameTwice(Named::Node, i));
    }
    if let Some(i) = ports::wrong_end(nodes.len() as u32, edges) {
        return Err(LawFault::NoSuchEnd(i));
    }
    if let Some(v) = ports::wrong_ports(nodes, edges) {
        return Err(LawFault::Ports(v));
    }
    Ok(())
}

// Refuses functions that don't fit, and a job that is too heavy.
fn check_meaning(
    columns: &[Column],
    nodes: &[NodeDef],
    dag: &Dag,
    tables: &[Table],
) -> Result<(), LawFault>
    requires graph { dag.now.nodes ≡ length nodes.now }
    requires shape { HasShape (job_view_as columns.now nodes.now dag.now.edges tables.now) }
    requires acyclic { HasNoCycle (job_view_as columns.now nodes.now dag.now.edges tables.now) }
    ensures columns { OnOk result
        (HasColumns (job_view_as columns.now nodes.now dag.now.edges tables.now)) }
    ensures tables { OnOk result
        (HasTables (job_view_as columns.now nodes.now dag.now.edges tables.now)) }
    ensures weight { OnOk result
        (weight (job_view_as columns.now nodes.now dag.now.edges tables.now)
        ≤ MAX_WEIGHT) }
    ensures fault { IfErr result (λ fault.
        IsRefused fault (job_view_as columns.now nodes.now dag.now.edges tables.now)) }
{
    if let Some(v) = fitting::wrong_columns(columns, nodes, tables) {
        return Err(LawFault::Column(v));
    }
    if let Some(v) = fitting::wrong_table(nodes, tables) {
        return Err(LawFault::NoTable(v));
    }
    let weight = weights::weight_of(nodes, dag);
    if weight > MAX_WEIGHT {
        return Err(LawFault::Weight(weight));
    }
    Ok(())
}
