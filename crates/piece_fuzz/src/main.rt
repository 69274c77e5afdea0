//! The program `piece_fuzz`: random CSV is read in pieces and as a whole, and the records are
//! compared.
//!
//! Its words are SEED and BYTES: the seed of the text and of its reads, and how many bytes the text
//! has. It prints one line. The status is 0 if the records agree, 1 if not, 2 if the words are
//! wrong, and 3 if memory ran out or the line couldn't be printed.
#![tactic(auto)]

mod compare;
mod draws;
mod made;
mod records;
mod words;

use crate::compare::{Found, compare};
use crate::made::{random_steps, random_text};
use crate::words::{Asked, asked_of};
use input_pieces::{MemoryTap, PieceFault};
use std::alloc::Global;
use std::io;
use std::process::ExitCode;
use tuple_trace::Bytes;

fn main(rt: HostRuntime) -> ExitCode {
    match asked_of(&rt) {
        Some(asked) => ExitCode::from(fuzz(&rt, asked)),
        None => {
            let _ = eprintln!(rt; "usage: piece_fuzz SEED BYTES (BYTES below 1048576)");
            ExitCode::from(2)
        }
    }
}

// Compares the records, tells what came of it, and returns the status.
fn fuzz(rt: &HostRuntime, asked: Asked) -> u8 {
    match found_of(rt.alloc(), asked) {
        Ok(found) => match tell(rt, asked, found) {
            Ok(()) => u8::from(!found.agrees),
            Err(_) => 3,
        },
        Err(fault) => {
            let _ = eprintln!(rt; "piece_fuzz: {fault:?}");
            if fault == PieceFault::NoMemory { 3 } else { 1 }
        }
    }
}

// Makes the text, and reads it both ways.
fn found_of(alloc: Global, asked: Asked) -> Result<Found, PieceFault> {
    let text = random_text(alloc, asked.seed, asked.bytes)?;
    let mut tap = tap_of(alloc, text.as_slice(), asked.seed)?;
    compare(alloc, text.as_slice(), &mut tap)
}

// A tap that gives this text by reads of random lengths.
fn tap_of(alloc: Global, text: &[u8], seed: u64) -> Result<MemoryTap, PieceFault> {
    let steps = random_steps(alloc, seed, text.len())?;
    Ok(MemoryTap::new(Bytes::from_slice(alloc, text)?, steps))
}

fn tell(rt: &HostRuntime, asked: Asked, found: Found) -> io::Result<()> {
    let Asked { seed, bytes } = asked;
    let Found {
        pieces,
        records,
        agrees,
    } = found;
    print!(rt; "seed {seed} bytes {bytes} pieces {pieces} records {records} ")?;
    if agrees {
        println!(rt; "agree")
    } else {
        println!(rt; "differ at record {}", records.saturating_add(1))
    }
}
