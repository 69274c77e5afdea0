// The words of the call.
use input_pieces::MAX_RECORD;
use std::env;
use std::env::Args;

/// What the words ask for.
#[derive(Clone, Copy)]
pub struct Asked {
    pub seed: u64,
    /// How many bytes the text has, fewer than a record may have.
    pub bytes: usize,
}

/// The words SEED and BYTES after the program's name. `None` if they are others.
pub fn asked_of(rt: &HostRuntime) -> Option<Asked> {
    match env::args(rt) {
        Ok(args) => two_numbers(args),
        Err(_) => None,
    }
}

fn two_numbers(mut args: Args) -> Option<Asked> {
    let _program = args.next();
    let seed = number(args.next());
    let bytes = number(args.next());
    let more = args.next().is_some();
    match (seed, bytes) {
        (Some(seed), Some(bytes)) if !more && bytes < MAX_RECORD as u64 => Some(Asked {
            seed,
            bytes: bytes as usize,
        }),
        _ => None,
    }
}

// The number that a word spells.
fn number(word: Option<String>) -> Option<u64> {
    match word {
        Some(word) => word.as_str().parse::<u64>().ok(),
        None => None,
    }
}
