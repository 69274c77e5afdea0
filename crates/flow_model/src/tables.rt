// The tables of a topology, made from a job.
ghost use Rattle.std.specs.Prelude.{◌≡◌, ◌<◌, ◌≤◌, ◌++◌, ◌+◌, ◌^◌, IfOk, OnOk, Some, length, map};
ghost use Rattle.std.specs.Prelude.{slice_get};
ghost use Rattle.std.specs.List.{enumerate_from, range_with_len};
ghost use Rattle.jobs.specs.Job.{job_view};
ghost use Rattle.operators.specs.Ports.{out_ports as ports_of};
ghost use Rattle.flow_model.specs.Lanes.{is_sender, lanes, lanes_of, senders};
ghost use Rattle.flow_model.specs.Workers.{workers_in, workers_at_node};
ghost use Rattle.flow_model.specs.Topology.{first_worker, numbers_out, numbers_in, lanes_to};
ghost use Rattle.flow_model.specs.Topology.{out_edge, out_edges, worker_of};

use crate::topology::{Lane, LaneNumbers, OutEdge, OutEdges, WorkerAt};
use flow_dag::Edge;
use jobs::MAX_WORKERS;
use operators::{Job, Ports, is_source, out_ports};
use std::alloc::Global;
use tuple_trace::{Items, NoMemory};

/// The workers, by their numbers.
pub fn workers_of(alloc: Global, job: &Job) -> Result<Items<WorkerAt>, NoMemory>
    ensures { IfOk result (λ workers. workers ≡ map worker_of (workers_in (job_view job.now))) }
{
    let mut workers = Items::new(alloc);
    for (node, def) in job.nodes.as_slice().iter().enumerate() {
        push_workers(&mut workers, node as u32, def.journal_count())?;
    }
    Ok(workers)
}

fn push_workers(workers: &mut Items<WorkerAt>, node: u32, count: u32) -> Result<(), NoMemory>
    ensures { OnOk result (workers.new
        ≡ workers.old ++ map (λ place. record { node = node; place = place })
        (range_with_len 0 count)) }
{
    for place in 0..count {
        workers.push(WorkerAt { node, place })?;
    }
    Ok(())
}

/// The lanes, by their numbers.
pub fn all_lanes(alloc: Global, job: &Job) -> Result<Items<Lane>, NoMemory>
    ensures { IfOk result (λ all. all ≡ lanes (job_view job.now)) }
{
    let mut all = Items::new(alloc);
    for (number, edge) in job.dag.all_edges().iter().enumerate() {
        push_edge(&mut all, job, number as u32, edge)?;
    }
    Ok(all)
}

// The lanes of an edge, sender after sender.
fn push_edge(all: &mut Items<Lane>, job: &Job, number: u32, edge: &Edge) -> Result<(), NoMemory>
    requires { slice_get (job_view job.now).edges number ≡ Some edge.now }
    ensures { OnOk result (all.new ≡ all.old ++ lanes_of (job_view job.now) number edge.now) }
{
    let first = first_worker(job, edge.to);
    let workers = receiver_count(job, edge.to);
    let senders = sender_count(job, edge.from);
    for place in 0..senders {
        let sender = sender_at(job, edge.from, place);
        push_lanes(all, number, sender, first, workers)?;
    }
    Ok(())
}

// The lanes of one sender along an edge.
fn push_lanes(
    all: &mut Items<Lane>,
    edge: u32,
    sender: Option<u32>,
    first: u32,
    workers: u32,
) -> Result<(), NoMemory>
    requires { first + workers < 2 ^ 32 }
    ensures { OnOk result (all.new ≡ all.old ++ lanes_to edge sender first workers) }
{
    for place in 0..workers {
        all.push(Lane {
            edge,
            sender,
            receiver: first + place,
        })?;
    }
    Ok(())
}

// The sender at a place of a node: the feeder at a source, and one of its workers at any other.
fn sender_at(job: &Job, node: u32, place: u32) -> Option<u32>
    requires node { node < length (job_view job.now).nodes }
    requires place { place < length (senders (job_view job.now) node) }
    ensures { slice_get (senders (job_view job.now) node) place ≡ Some result }
{
    let def = &job.nodes.as_slice()[node as usize];
    if is_source(&def.func) {
        None
    } else {
        Some(first_worker(job, node) + place)
    }
}

// The number of the first worker of a node.
fn first_worker(job: &Job, node: u32) -> u32
    requires { node < length (job_view job.now).nodes }
    ensures { result ≡ first_worker (job_view job.now) node }
{
    let mut first = 0;
    for def in &job.nodes.as_slice()[..node as usize] {
        first += def.journal_count();
    }
    first
}

// How many workers of a node receive.
fn receiver_count(job: &Job, node: u32) -> u32
    requires { node < length (job_view job.now).nodes }
    ensures { result ≡ length (workers_at_node (job_view job.now) node) }
{
    job.nodes.as_slice()[node as usize].journal_count()
}

// How many send from a node.
fn sender_count(job: &Job, node: u32) -> u32
    requires { node < length (job_view job.now).nodes }
    ensures { result ≡ length (senders (job_view job.now) node) }
{
    let def = &job.nodes.as_slice()[node as usize];
    if is_source(&def.func) {
        1
    } else {
        def.journal_count()
    }
}

/// The numbers of the lanes into each worker.
pub fn numbers_in_each(
    alloc: Global,
    workers: usize,
    all: &[Lane],
) -> Result<Items<LaneNumbers>, NoMemory>
    requires workers { workers ≤ MAX_WORKERS }
    requires lanes { length all.now < 2 ^ 32 }
    ensures { IfOk result (λ into. into ≡ map (numbers_in all.now) (range_with_len 0 workers)) }
{
    let mut into = Items::new(alloc);
    for worker in 0..workers {
        into.push(numbers_in(alloc, all, worker as u32)?)?;
    }
    Ok(into)
}

fn numbers_in(alloc: Global, all: &[Lane], worker: u32) -> Result<LaneNumbers, NoMemory>
    requires { length all.now < 2 ^ 32 }
    ensures { IfOk result (λ numbers. numbers ≡ numbers_in all.now worker) }
{
    let mut numbers = LaneNumbers::new(alloc);
    for (number, lane) in all.iter().enumerate() {
        if lane.receiver == worker {
            numbers.push(number as u32)?;
        }
    }
    Ok(numbers)
}

/// The numbers of the lanes out of each worker.
pub fn numbers_out_each(
    alloc: Global,
    workers: usize,
    all: &[Lane],
) -> Result<Items<LaneNumbers>, NoMemory>
    requires workers { workers ≤ MAX_WORKERS }
    requires lanes { length all.now < 2 ^ 32 }
    ensures { IfOk result (λ from. from ≡ map (numbers_out all.now) (range_with_len 0 workers)) }
{
    let mut from = Items::new(alloc);
    for worker in 0..workers {
        from.push(numbers_out(alloc, all, worker as u32)?)?;
    }
    Ok(from)
}

fn numbers_out(alloc: Global, all: &[Lane], worker: u32) -> Result<LaneNumbers, NoMemory>
    requires { length all.now < 2 ^ 32 }
    ensures { IfOk result (λ numbers. numbers ≡ numbers_out all.now worker) }
{
    let mut numbers = LaneNumbers::new(alloc);
    for (number, lane) in all.iter().enumerate() {
        if is_from(lane, worker) {
            numbers.push(number as u32)?;
        }
    }
    Ok(numbers)
}

// Whether a worker sends on the lane.
fn is_from(lane: &Lane, worker: u32) -> bool
    ensures { result ≡ is_sender worker lane.now.sender }
{
    match lane.sender {
        Some(sender) => sender == worker,
        None => false,
    }
}

/// All edges, as their senders see them.
pub fn all_out_edges(alloc: Global, job: &Job) -> Result<OutEdges, NoMemory>
    ensures { IfOk result (λ all.
        all ≡ map (out_edge (job_view job.now)) (enumerate_from 0 (job_view job.now).edges)) }
{
    let mut all = OutEdges::new(alloc);
    let mut first_lane = 0;
    for (number, edge) in job.dag.all_edges().iter().enumerate() {
        let receivers = receiver_count(job, edge.to);
        all.push(OutEdge {
            port: edge.port,
            edge: number as u32,
            first_lane,
            first_receiver: first_worker(job, edge.to),
            receivers,
        })?;
        first_lane += sender_count(job, edge.from) * receivers;
    }
    Ok(all)
}

/// The edges out of each node.
pub fn edges_by_node(alloc: Global, job: &Job, all: &[OutEdge]) -> Result<Items<OutEdges>, NoMemory>
    requires { all.now
        ≡ map (out_edge (job_view job.now)) (enumerate_from 0 (job_view job.now).edges) }
    ensures { IfOk result (λ outs.
        outs ≡ map (out_edges (job_view job.now))
        (range_with_len 0 (length (job_view job.now).nodes))) }
{
    let mut outs = Items::new(alloc);
    for node in 0..job.nodes.len() {
        outs.push(edges_from(alloc, job, all, node as u32)?)?;
    }
    Ok(outs)
}

fn edges_from(alloc: Global, job: &Job, all: &[OutEdge], node: u32) -> Result<OutEdges, NoMemory>
    requires { all.now
        ≡ map (out_edge (job_view job.now)) (enumerate_from 0 (job_view job.now).edges) }
    ensures { IfOk result (λ outs. outs ≡ out_edges (job_view job.now) node) }
{
    let mut outs = OutEdges::new(alloc);
    for (number, out) in all.iter().enumerate() {
        if job.dag.edge(number as u32).from != node {
            continue;
        }
        outs.push(*out)?;
    }
    Ok(outs)
}

/// The ports of the edges out of each node.
pub fn ports_by_node(alloc: Global, job: &Job) -> Result<Items<Ports>, NoMemory>
    ensures { IfOk result (λ all. all
        ≡ map (ports_of (job_view job.now).edges) (range_with_len 0
        (length (job_view job.now).nodes))) }
{
    let mut all = Items::new(alloc);
    for node in 0..job.nodes.len() {
        all.push(out_ports(alloc, job, node as u32)?)?;
    }
    Ok(all)
}
