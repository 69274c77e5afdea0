//! Runs of random jobs, beside those of the plain executor.
//!
//! No job has a count or a dedupe: with several lanes into a counter its numbers depend on the
//! schedule. A request either turns one function before the first row, or leaves the meaning of
//! functions and comes between rows. So the lines of the alerts don't depend on the schedule.
use crate::tests::plain::plain_alerts;
use crate::tests::random_jobs::{SINK, SOURCES, STAGES, Stage, TAGS};
use crate::tests::seen::{Alerts, DONE, Wanted};
use crate::tests::{Input, run};
use std::alloc::{AllocError, Global};
use std::sync::Wait;
use std::thread::Threads;
use test_texts::{digit, draw};
use tuple_trace::{NoMemory, OpenGate};

const CAPACITIES: [&str; 4] = ["1", "2", "16", "64"];

/// The texts of a run, which a seed determines.
#[derive(Drop)]
pub struct Case {
    job: String,
    requests: String,
    payments: String,
    capacity: &'static str,
}

impl Case {
    /// The case of a seed.
    pub fn of(alloc: Global, seed: u64) -> Result<Case, AllocError> {
        let stages = draw(seed, 1, 3).wrapping_add(1);
        let rows = draw(seed, 2, 8).wrapping_add(6);
        let capacity = CAPACITIES.get(draw(seed, 3, 4) as usize);
        Ok(Case {
            job: job_of(alloc, seed, stages)?,
            requests: requests_of(alloc, seed, stages, rows)?,
            payments: payments_of(alloc, seed, rows)?,
            capacity: capacity.copied().unwrap_or("8"),
        })
    }

    /// What `run` is called with.
    pub fn input(&self) -> Input<'_> {
        Input {
            job: self.job.as_str(),
            requests: self.requests.as_str(),
            payments: self.payments.as_str(),
            threads: "4",
            capacity: self.capacity,
        }
    }
}

fn stage_of(seed: u64, number: u64) -> &'static Stage {
    STAGES
        .get(draw(seed, number.wrapping_add(10), 6) as usize)
        .unwrap_or(&STAGES[0])
}

/// A place in a job: the number of the stage, and the letter of the node before it.
#[derive(Clone, Copy)]
struct Spot {
    seed: u64,
    number: u64,
    before: char,
}

// Adds a text of a stage, with what the seed draws for it.
fn push_filled(text: &mut String, template: &str, at: Spot) -> Result<(), AllocError> {
    for letter in template.chars() {
        match letter {
            '#' => text.push(digit(at.number))?,
            '%' => text.push(digit(workers_at(at.seed, text.len() as u64)))?,
            '*' => text.push(digit(draw(at.seed, at.number.wrapping_add(20), 10)))?,
            '<' => push_before(text, at)?,
            other => text.push(other)?,
        }
    }
    Ok(())
}

fn workers_at(seed: u64, place: u64) -> u64 {
    draw(seed, place.wrapping_add(1000), 3).wrapping_add(1)
}

fn push_before(text: &mut String, at: Spot) -> Result<(), AllocError> {
    text.push(at.before)?;
    text.push(digit(at.number.wrapping_sub(1)))
}

fn job_of(alloc: Global, seed: u64, stages: u64) -> Result<String, AllocError> {
    let mut text = SOURCES.to_string(alloc)?;
    let mut at = Spot {
        seed,
        number: 1,
        before: 'a',
    };
    for _ in 0..stages {
        let stage = stage_of(seed, at.number);
        push_filled(&mut text, stage.text, at)?;
        at.before = stage.exit;
        at.number = at.number.wrapping_add(1);
    }
    push_filled(&mut text, SINK, at)?;
    Ok(text)
}

// One request or none.
fn requests_of(alloc: Global, seed: u64, stages: u64, rows: u64) -> Result<String, AllocError> {
    let number = draw(seed, 4, stages).wrapping_add(1);
    let stage = stage_of(seed, number);
    let at = Spot {
        seed,
        number,
        before: 'a',
    };
    match draw(seed, 5, 4) {
        0 => Ok(String::new(alloc)),
        1 => request_of(alloc, 0, stage.other, at),
        _ => request_of(alloc, draw(seed, 6, rows), stage.same, at),
    }
}

fn request_of(alloc: Global, after: u64, changes: &str, at: Spot) -> Result<String, AllocError> {
    let mut text = format!(in alloc; "[[request]]\nafter = {after}\n")?;
    push_filled(&mut text, changes, at)?;
    Ok(text)
}

fn payments_of(alloc: Global, seed: u64, rows: u64) -> Result<String, AllocError> {
    let mut text = "source,n,tags\n".to_string(alloc)?;
    for row in 0..rows {
        let place = row.wrapping_add(100);
        push_row(&mut text, draw(seed, place, 100), draw(seed, place, 5))?;
    }
    Ok(text)
}

fn push_row(text: &mut String, number: u64, tag: u64) -> Result<(), AllocError> {
    let tags = TAGS.get(tag as usize).copied().unwrap_or("");
    let line = format!(in *text.allocator(); "a0,{number},{tags}\n")?;
    text.push_str(line.as_str())
}

/// What was found of some runs.
#[derive(Clone, Copy)]
struct Found {
    /// How many jobs the plain executor ran.
    ran: u32,
    /// How many of them the engine ran otherwise.
    wrong: u32,
}

fn run_all<R>(rt: &R, alloc: Global, seeds: u64) -> Result<Found, NoMemory>
where
    R: Threads + Wait + Copy + Send + Sync + 'static,
{
    let mut found = Found { ran: 0, wrong: 0 };
    for seed in 0..seeds {
        let case = Case::of(alloc, seed)?;
        if let Some(same) = is_same(rt, alloc, case.input()) {
            found.ran = found.ran.wrapping_add(1);
            found.wrong = found.wrong.wrapping_add(u32::from(!same));
        }
    }
    Ok(found)
}

// Whether the engine leaves the lines of the plain executor. `None` if that refuses the case.
fn is_same<R>(rt: &R, alloc: Global, input: Input<'_>) -> Option<bool>
where
    R: Threads + Wait + Copy + Send + Sync + 'static,
{
    let plain = plain_alerts(alloc, input).ok()?;
    let wanted = Wanted {
        alerts: Alerts::Lines(plain.as_slice()),
        ..DONE
    };
    match run(rt, alloc, &OpenGate, input, wanted) {
        Ok(seen) => Some(seen.is_wanted),
        Err(_) => Some(false),
    }
}

#[test]
fn two_hundred_runs(rt: HostRuntime) {
    let found = run_all(&rt, rt.alloc(), 200).expect(&rt, "memory");
    assert_eq!(rt; found.wrong, 0);
    assert!(rt; found.ran >= 190 && found.ran <= 200, "{} runs", found.ran);
}
