//! Audits of random jobs.
use crate::tests::case::{audit_of, is_verified};
use std::alloc::{AllocError, Global};
use test_runs::Inputs;
use test_texts::draw;

const HEAD: &str = r#"columns = ["n:number", "tags:text", "seen:number:own"]
[[node]]
name = "a0"
kind = "source"
[[node]]
name = "out"
kind = "sink"
columns = ["n", "tags"]
"#;

/// The kinds of nodes in the middle, and for each a request that changes it.
const KINDS: [(&str, &str); 6] = [
    (
        "kind = \"map\"\nsteps = [[\"n\", \"add\", \"n\", 3]]\n",
        "kind = \"map\"\nsteps = [[\"n\", \"sub\", \"n\", 1]]\n",
    ),
    (
        "kind = \"filter\"\nwhen = [[\"n\", \">=\", 20]]\n",
        "kind = \"filter\"\nwhen = [[\"n\", \">=\", 50]]\n",
    ),
    (
        "kind = \"split\"\non = \"tags\"\nby = \";\"\nmost = 3\n",
        "kind = \"split\"\non = \"tags\"\nby = \".\"\nmost = 2\n",
    ),
    (
        "kind = \"count\"\nkey = \"tags\"\nadd = 1\ninto = \"seen\"\n",
        "kind = \"count\"\nkey = \"tags\"\nadd = 2\ninto = \"seen\"\n",
    ),
    (
        "kind = \"dedupe\"\nkey = \"tags\"\n",
        "kind = \"dedupe\"\nkey = \"tags\"\ncarry = \"reset\"\n",
    ),
    (
        "kind = \"clamp\"\non = \"n\"\nlow = 10\nhigh = 60\n",
        "kind = \"clamp\"\non = \"n\"\nlow = 30\nhigh = 30\n",
    ),
];

fn kind_of(seed: u64, number: u64) -> (&'static str, &'static str) {
    let place = draw(seed, number.wrapping_add(10), 6) as usize;
    KINDS.get(place).copied().unwrap_or(KINDS[0])
}

fn job_of(alloc: Global, seed: u64, stages: u64) -> Result<String, AllocError> {
    let mut text = HEAD.to_string(alloc)?;
    for number in 1..stages {
        let before = number.wrapping_sub(1);
        let workers = draw(seed, number.wrapping_add(20), 3).wrapping_add(1);
        let kind = kind_of(seed, number).0;
        let stage = format!(in alloc;
            "[[node]]\nname = \"a{number}\"\nworkers = {workers}\n{kind}[[edge]]\nfrom = \"a{before}\"\nto = \"a{number}\"\n"
        )?;
        text.push_str(stage.as_str())?;
    }
    let last = stages.wrapping_sub(1);
    let end = format!(in alloc; "[[edge]]\nfrom = \"a{last}\"\nto = \"out\"\n")?;
    text.push_str(end.as_str())?;
    Ok(text)
}

fn requests_of(alloc: Global, seed: u64, stages: u64) -> Result<String, AllocError> {
    let mut text = String::new(alloc);
    for number in 1..stages {
        let after = draw(seed, 30, 9).wrapping_add(number);
        let kind = kind_of(seed, number).1;
        let request = format!(in alloc;
            "[[request]]\nafter = {after}\n[[request.change]]\nnode = \"a{number}\"\nfrom = 0\n{kind}"
        )?;
        text.push_str(request.as_str())?;
    }
    Ok(text)
}

const TAGS: [&str; 5] = ["", "a", "b;c", "d.e", "f;g;h;i"];

fn payments_of(alloc: Global, seed: u64) -> Result<String, AllocError> {
    let mut text = "source,n,tags\n".to_string(alloc)?;
    for row in 0..draw(seed, 2, 12) {
        let number = draw(seed, row.wrapping_add(100), 100);
        let tags = TAGS
            .get(draw(seed, row.wrapping_add(100), 5) as usize)
            .copied()
            .unwrap_or("");
        let line = format!(in alloc; "a0,{number},{tags}\n")?;
        text.push_str(line.as_str())?;
    }
    Ok(text)
}

/// Whether the audit of the job of a seed is verified. `None` if there is no such job.
fn is_right(alloc: Global, seed: u64) -> Option<bool> {
    let stages = draw(seed, 1, 4).wrapping_add(1);
    let job = job_of(alloc, seed, stages).ok()?;
    let requests = requests_of(alloc, seed, stages).ok()?;
    let payments = payments_of(alloc, seed).ok()?;
    let case = Inputs {
        job: job.as_str(),
        requests: requests.as_str(),
        payments: payments.as_str(),
        ordered: false,
    };
    let text = audit_of(alloc, case)?;
    Some(is_verified(alloc, case, text.as_slice()))
}

/// How many audits are verified, how many aren't, and how many seeds have no job.
fn count_all(alloc: Global, seeds: u64) -> (u32, u32, u32) {
    let mut found = (0u32, 0u32, 0u32);
    for seed in 0..seeds {
        match is_right(alloc, seed) {
            Some(true) => found.0 = found.0.wrapping_add(1),
            Some(false) => found.1 = found.1.wrapping_add(1),
            None => found.2 = found.2.wrapping_add(1),
        }
    }
    found
}

#[test]
fn audits_of_random_jobs(rt: HostRuntime) {
    let found = count_all(rt.alloc(), 60);
    assert_eq!(rt; found, (60, 0, 0));
}
