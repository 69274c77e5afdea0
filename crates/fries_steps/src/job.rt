ghost use Rattle.std.specs.Prelude.{◌≡◌, ◌∷◌, ◌++◌, [], IfOk, OnOk};
ghost use Rattle.jobs.specs.Job.{job_view};
ghost use Rattle.fries_steps.specs.FirstJob.{is_at_least as at_least_of, file_column};
ghost use Rattle.fries_steps.specs.FirstJob.{first_columns};
ghost use Rattle.fries_steps.specs.FirstJob.{first_job as first_job_of, first_request, single_node};

use flow_dag::Edge;
use fries_words::First;
use jobs::{
    Column, ColumnDefs, ColumnKind, Columns, Cond, Conds, Func, Job, NodeDef, NodeDefs, Tables,
    Test,
};
use keyed_state::Carry;
use std::alloc::Global;
use tuple_trace::{NoMemory, Txt, Value};
use versions::{Change, Changes, Request, Requests};

/// The place of the node `big`.
const BIG: u32 = 1;

/// The place of the column `amount`.
const AMOUNT: u32 = 2;

/// The job of the command `first`: payments enter by `card`, those of at least this amount pass
/// `big`, and `alerts` shows them.
pub fn first_job(alloc: Global, least: i64) -> Result<Job, NoMemory>
    ensures { IfOk result (λ job. job_view job ≡ first_job_of least) }
{
    let columns = columns(alloc)?;
    let nodes = nodes(alloc, least)?;
    let edges = [
        Edge {
            from: 0,
            port: 0,
            to: 1,
        },
        Edge {
            from: 1,
            port: 0,
            to: 2,
        },
    ];
    // The parts are lawful, so memory is all that can be wanting.
    Job::check(alloc, columns, nodes, &edges, Tables::new(alloc)).map_err(|_| NoMemory)
}

/// The one request of the command `first`: `big` has another threshold from a row on.
pub fn first_requests(alloc: Global, first: &First) -> Result<Requests, NoMemory>
    ensures { IfOk result (λ requests. requests ≡ first_request first.now.after
        first.now.least_after ∷ []) }
{
    let change = Change {
        node: BIG,
        from: 0,
        func: at_least(alloc, first.least_after)?,
        carry: Carry::Keep,
    };
    let request = Request {
        after: first.after,
        changes: Changes::from_vec(Vec::from_array(alloc, [change])?),
    };
    Ok(Requests::from_vec(Vec::from_array(alloc, [request])?))
}

// The function of `big` that lets amounts from `least` cents on pass.
fn at_least(alloc: Global, least: i64) -> Result<Func, NoMemory>
    ensures { IfOk result (λ func. func ≡ at_least_of least) }
{
    let cond = Cond {
        column: AMOUNT,
        test: Test::Ge,
        literal: Value::Num(least),
    };
    Ok(Func::Filter(Conds::from_vec(Vec::from_array(alloc, [cond])?)))
}

fn columns(alloc: Global) -> Result<ColumnDefs, NoMemory>
    ensures { IfOk result (λ columns. columns ≡ first_columns) }
{
    let account = column(alloc, b"account", ColumnKind::Text)?;
    let merchant = column(alloc, b"merchant", ColumnKind::Text)?;
    let amount = column(alloc, b"amount", ColumnKind::Cents)?;
    let tags = column(alloc, b"tags", ColumnKind::Text)?;
    let columns = Vec::from_array(alloc, [account, merchant, amount, tags])?;
    Ok(ColumnDefs::from_vec(columns))
}

fn nodes(alloc: Global, least: i64) -> Result<NodeDefs, NoMemory>
    ensures { IfOk result (λ nodes. nodes ≡ (first_job_of least).nodes) }
{
    let mut nodes = NodeDefs::new(alloc);
    push_node(alloc, &mut nodes, b"card", Func::Source)?;
    push_node(alloc, &mut nodes, b"big", at_least(alloc, least)?)?;
    let listed = Columns::from_slice(alloc, &[0, 1, 2, 3])?;
    push_node(alloc, &mut nodes, b"alerts", Func::Sink(listed))?;
    Ok(nodes)
}

fn push_node(alloc: Global, nodes: &mut NodeDefs, name: &[u8], func: Func) -> Result<(), NoMemory>
    ensures { OnOk result (nodes.new ≡ nodes.old ++ single_node name.now func ∷ []) }
{
    nodes.push(node(alloc, name, func)?)
}

fn column(alloc: Global, name: &[u8], kind: ColumnKind) -> Result<Column, NoMemory>
    ensures { IfOk result (λ column. column ≡ file_column name.now kind) }
{
    Ok(Column {
        name: Txt::from_slice(alloc, name)?,
        kind,
        own: false,
    })
}

fn node(alloc: Global, name: &[u8], func: Func) -> Result<NodeDef, NoMemory>
    ensures { IfOk result (λ node. node ≡ single_node name.now func) }
{
    Ok(NodeDef {
        name: Txt::from_slice(alloc, name)?,
        func,
        workers: 1,
        roof: 1,
    })
}
