//! Random jobs, requests and payments. A seed determines them.
//!
//! A request turns a function before the first row, or leaves the meaning of functions and comes
//! between rows. So neither the lines of the alerts nor the last counts depend on the schedule.

use crate::tests::Input;
use crate::tests::stages::{COUNTS, HEAD, SINK, STAGES, Stage, TAGS};
use std::alloc::{AllocError, Global};
use test_texts::{digit, draw};

/// How a request begins that comes between rows.
const AFTER: [&str; 4] = [
    "[[request]]\nafter = 1\n",
    "[[request]]\nafter = 2\n",
    "[[request]]\nafter = 3\n",
    "[[request]]\nafter = 9\n",
];

/// The texts of a run.
#[derive(Drop)]
pub struct Case {
    job: String,
    requests: String,
    payments: String,
}

impl Case {
    pub fn of(alloc: Global, seed: u64) -> Result<Case, AllocError> {
        Ok(Case {
            job: job_of(alloc, seed)?,
            requests: requests_of(alloc, seed)?,
            payments: payments_of(alloc, seed)?,
        })
    }

    pub fn input(&self) -> Input<'_> {
        Input {
            job: self.job.as_str(),
            requests: self.requests.as_str(),
            payments: self.payments.as_str(),
        }
    }
}

/// How many rows the payments have.
pub fn rows_of(seed: u64) -> u64 {
    draw(seed, 1, 3).wrapping_add(4)
}

// How many stages lie between the first count and the sink.
fn stages_of(seed: u64) -> u64 {
    draw(seed, 2, 3).wrapping_add(1)
}

// The stage with this number. Number 0 is the first count.
fn stage_of(seed: u64, number: u64) -> &'static Stage {
    if number == 0 {
        return &COUNTS;
    }
    let drawn = draw(seed, number.wrapping_add(10), 4) as usize;
    STAGES.get(drawn).unwrap_or(&COUNTS)
}

// What a letter of a template stands for. `place` is where it stands in the text.
fn filled(letter: char, seed: u64, number: u64, place: u64) -> char {
    match letter {
        '#' => digit(number),
        '<' => digit(number.wrapping_sub(1)),
        '%' => digit(draw(seed, place.wrapping_add(1000), 3).wrapping_add(1)),
        '*' => digit(draw(seed, number.wrapping_add(20), 10)),
        other => other,
    }
}

fn push_filled(
    text: &mut String,
    template: &str,
    seed: u64,
    number: u64,
) -> Result<(), AllocError> {
    for letter in template.chars() {
        let place = text.len() as u64;
        text.push(filled(letter, seed, number, place))?;
    }
    Ok(())
}

fn job_of(alloc: Global, seed: u64) -> Result<String, AllocError> {
    let mut text = String::new(alloc);
    push_filled(&mut text, HEAD, seed, 0)?;
    let mut number = 1;
    for _ in 0..stages_of(seed) {
        push_filled(&mut text, stage_of(seed, number).text, seed, number)?;
        number = number.wrapping_add(1);
    }
    push_filled(&mut text, SINK, seed, number)?;
    Ok(text)
}

// One request before the first row. If they change two stages, another one comes between rows.
fn requests_of(alloc: Global, seed: u64) -> Result<String, AllocError> {
    let count = stages_of(seed).wrapping_add(1);
    let (one, other) = (draw(seed, 3, count), draw(seed, 4, count));
    let mut text = "[[request]]\nafter = 0\n".to_string(alloc)?;
    push_filled(&mut text, stage_of(seed, one).other, seed, one)?;
    if one != other {
        text.push_str(AFTER.get(draw(seed, 5, 4) as usize).copied().unwrap_or(""))?;
        push_filled(&mut text, stage_of(seed, other).same, seed, other)?;
    }
    Ok(text)
}

fn payments_of(alloc: Global, seed: u64) -> Result<String, AllocError> {
    let mut text = "source,n,tags\n".to_string(alloc)?;
    for row in 0..rows_of(seed) {
        push_row(&mut text, seed, row.wrapping_add(100))?;
    }
    Ok(text)
}

fn push_row(text: &mut String, seed: u64, place: u64) -> Result<(), AllocError> {
    let tags = TAGS.get(draw(seed, place, 5) as usize).copied();
    let number = draw(seed, place.wrapping_add(50), 100);
    let tags = tags.unwrap_or("");
    let line = format!(in *text.allocator(); "a,{number},{tags}\n")?;
    text.push_str(line.as_str())
}
