// What an audit or a job tells of the place of a fault in the audit.
use crate::row_places::record_line;
use crate::shown::push_bytes;
use audit_fault::AuditFault;
use audit_stream::record_places;
use flow_model::Topology;
use fries_help_places::Place;
use jobs::Job;
use std::alloc::{AllocError, Global};
use std::fmt::Write;

/// What the bytes of an audit tell of the place of a fault in one of its records.
pub(crate) fn record_place(alloc: Global, bytes: &[u8], number: u64) -> Result<Place, AllocError> {
    let mut place = Place::new(alloc);
    if let Some(line) = record_line(alloc, bytes, number) {
        write!(place.note, "line {line}")?;
    }
    Ok(place)
}

/// What the bytes of a stream's audit tell of the place of a fault in a record of its parts, which
/// are put together. It stands at another place in the file.
pub(crate) fn parts_place(
    alloc: Global,
    job: &Job,
    bytes: &[u8],
    number: u64,
) -> Result<Place, AllocError> {
    let mut place = Place::new(alloc);
    place.detail.push_str(
        "Records are counted in the parts put together; `tools/together` prints them.",
    )?;
    if let Some(line) = parts_line(alloc, job, bytes, number) {
        write!(place.note, "line {line}")?;
    }
    Ok(place)
}

// The line of the file at which a record of the parts begins.
fn parts_line(alloc: Global, job: &Job, bytes: &[u8], number: u64) -> Option<u64> {
    match record_places(alloc, job, bytes) {
        Ok(Some(places)) => {
            let place = places.as_slice().get(number as usize)?;
            record_line(alloc, bytes, *place)
        }
        Ok(None) | Err(_) => None,
    }
}

/// What the job tells of the worker or the lane of a fault: the names of its nodes.
pub(crate) fn actor_place(
    alloc: Global,
    job: &Job,
    fault: AuditFault,
) -> Result<Place, AllocError> {
    let mut place = Place::new(alloc);
    push_actor(alloc, job, fault, &mut place.note)?;
    Ok(place)
}

fn push_actor(
    alloc: Global,
    job: &Job,
    fault: AuditFault,
    out: &mut String,
) -> Result<(), AllocError> {
    match Topology::of(alloc, job) {
        Ok(topology) => push_actor_of(job, &topology, fault, out),
        Err(_) => Ok(()),
    }
}

fn push_actor_of(
    job: &Job,
    topology: &Topology,
    fault: AuditFault,
    out: &mut String,
) -> Result<(), AllocError> {
    match fault {
        AuditFault::Law(worker) | AuditFault::State(worker) => {
            push_worker(job, topology, worker, ", its worker ", out)
        }
        AuditFault::Lane(lane) => push_lane(job, topology, lane, out),
        AuditFault::Shape(_)
        | AuditFault::Refused(_)
        | AuditFault::Feed(_)
        | AuditFault::NoMemory => Ok(()),
    }
}

// Appends the node of a worker, and after `between` its place among the workers of the node.
fn push_worker(
    job: &Job,
    topology: &Topology,
    worker: u32,
    between: &str,
    out: &mut String,
) -> Result<(), AllocError> {
    match topology.workers.as_slice().get(worker as usize) {
        Some(at) => {
            push_node(job, at.node, out)?;
            let place = at.place;
            write!(out, "{between}{place}")
        }
        None => Ok(()),
    }
}

fn push_lane(
    job: &Job,
    topology: &Topology,
    lane: u32,
    out: &mut String,
) -> Result<(), AllocError> {
    let Some(lane) = topology.lanes.as_slice().get(lane as usize) else {
        return Ok(());
    };
    match lane.sender {
        Some(sender) => push_worker(job, topology, sender, " ", out)?,
        None => push_source(job, lane.edge, out)?,
    }
    out.push_str(" to ")?;
    push_worker(job, topology, lane.receiver, " ", out)
}

// The source at which an edge begins.
fn push_source(job: &Job, edge: u32, out: &mut String) -> Result<(), AllocError> {
    if edge < job.dag.edges() {
        push_node(job, job.dag.edge(edge).from, out)
    } else {
        Ok(())
    }
}

fn push_node(job: &Job, node: u32, out: &mut String) -> Result<(), AllocError> {
    match job.nodes.as_slice().get(node as usize) {
        Some(node) => push_bytes(node.name.as_slice(), out),
        None => Ok(()),
    }
}
