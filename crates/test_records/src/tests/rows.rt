use crate::tests::chains::{ONE_ROW, TWO_WAYS, TWO_WAYS_FOR_B, WAYS};
use flow_replay::{FuncTable, Landing, alone};
use jobs::Job;
use std::alloc::{AllocError, Global};
use test_runs::{job_of, rows_of};
use tuple_trace::{NoMemory, Row, Value};

fn job(alloc: Global, nodes: &str) -> Option<Job> {
    match joined(alloc, nodes) {
        Ok(text) => job_of(alloc, text.as_str()),
        Err(_) => None,
    }
}

/// The text of a job with these nodes.
fn joined(alloc: Global, nodes: &str) -> Result<String, AllocError> {
    let mut text = String::new(alloc);
    text.push_str(nodes)?;
    text.push_str(WAYS)?;
    Ok(text)
}

/// The functions of all nodes of a job.
fn table(alloc: Global, job: &Job) -> Result<FuncTable, NoMemory> {
    let mut table = FuncTable::new(alloc);
    for node in &job.nodes {
        table.push(node.func.clone()?)?;
    }
    Ok(table)
}

fn is_tag(landing: &Landing, tag: &str) -> bool {
    match landing.fields.as_slice() {
        [Value::Text(text)] => {
            landing.sink == 6 && landing.row == 1 && text.as_slice() == tag.as_bytes()
        }
        _ => false,
    }
}

fn are_tags(landings: &[Landing], tags: &[&str]) -> bool {
    landings.len() == tags.len()
        && landings
            .iter()
            .zip(tags)
            .all(|(landing, tag)| is_tag(landing, tag))
}

fn lands(alloc: Global, job: &Job, table: &FuncTable, row: &Row, tags: &[&str]) -> bool {
    match alone(alloc, job, table, row) {
        Ok(landings) => are_tags(landings.as_slice(), tags),
        Err(_) => false,
    }
}

/// Whether these tags land if the row is sent by itself with the functions of these nodes.
fn makes(alloc: Global, nodes: &str, tags: &[&str]) -> bool {
    let Some(job) = job(alloc, nodes) else {
        return false;
    };
    let Ok(table) = table(alloc, &job) else {
        return false;
    };
    let Some(rows) = rows_of(alloc, &job, ONE_ROW) else {
        return false;
    };
    match rows.as_slice() {
        [row] => lands(alloc, &job, &table, row, tags),
        _ => false,
    }
}

#[test]
fn alone_through_a_split(rt: HostRuntime) {
    assert!(rt; makes(rt.alloc(), TWO_WAYS, &["a", "b"]));
    assert!(rt; makes(rt.alloc(), TWO_WAYS_FOR_B, &["b"]));
}
