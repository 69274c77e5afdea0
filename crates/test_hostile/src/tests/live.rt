//! Calls of `live`, and what they leave.
mod beside;
mod releases;
mod telling;

use payments::{Calls, MemoryShelf};
use std::alloc::Global;
use test_calls::{put_text, words_of};
use test_texts::AMOUNT_CHAIN;
use tuple_trace::{NoMemory, Word};

/// One request after row 2, with the threshold that the job has.
pub const AFTER_2: &str = r#"[[request]]
after = 2
change = [{ node = "big", from = 0, kind = "filter", when = [["amount", ">=", 10000]] }]
"#;

/// The same, and another one after row 12.
pub const AFTER_2_AND_12: &str = r#"[[request]]
after = 2
change = [{ node = "big", from = 0, kind = "filter", when = [["amount", ">=", 10000]] }]
[[request]]
after = 12
change = [{ node = "big", from = 1, kind = "filter", when = [["amount", ">=", 10000]] }]
"#;

/// The words of a call of `live` with these numbers of threads and of items on a lane.
pub fn live_words(alloc: Global, threads: &str, capacity: &str) -> Result<Vec<Word>, NoMemory> {
    let texts = [
        "live",
        "job.toml",
        "requests.toml",
        "payments.csv",
        "alerts.csv",
        "audit.csv",
        "--threads",
        threads,
        "--capacity",
        capacity,
    ];
    words_of(alloc, &texts)
}

/// The files of a call: the chain, these requests, and these payments.
pub fn shelf_of<'a>(
    alloc: Global,
    requests: &'a str,
    payments: &'a str,
) -> Result<MemoryShelf, NoMemory> {
    let files = [
        ("job.toml", AMOUNT_CHAIN),
        ("requests.toml", requests),
        ("payments.csv", payments),
    ];
    let mut shelf = MemoryShelf::new(alloc, 1_000_000, Calls::new(alloc));
    for (name, text) in files {
        put_text(alloc, name, text, &mut shelf)?;
    }
    Ok(shelf)
}
