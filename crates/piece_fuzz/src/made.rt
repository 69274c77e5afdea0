// Random texts of CSV, and the reads by which they come.
ghost use Rattle.std.specs.Prelude.{◌<◌, length};

use crate::draws::{below, size};
use input_pieces::TapStep;
use rand_pcg::Pcg32;
use std::alloc::Global;
use tuple_trace::{Bytes, Items, NoMemory};

/// The streams of the generator, one for a text and one for its reads.
const OF_TEXT: u64 = 1;

const OF_STEPS: u64 = 2;

/// A random text of `bytes` bytes. It is made of stretches, each from one pattern.
pub fn random_text(alloc: Global, seed: u64, bytes: usize) -> Result<Bytes, NoMemory> {
    let mut draws = Pcg32::new(seed, OF_TEXT);
    let mut text = Bytes::new(alloc);
    for _ in 0..bytes {
        let left = bytes.saturating_sub(text.len());
        if left == 0 {
            break;
        }
        add_stretch(&mut draws, left, &mut text)?;
    }
    Ok(text)
}

// Adds 1 to 2,048 bytes of one pattern, at most `most`.
fn add_stretch(draws: &mut Pcg32, most: usize, text: &mut Bytes) -> Result<(), NoMemory> {
    let pattern = pattern(below(draws, 6));
    let mut place = 0;
    for _ in 0..size(draws, 11).min(most) {
        place = next_place(draws, place, pattern.len());
        text.push(pattern[place])?;
    }
    Ok(())
}

// The place of the next byte: the following one, or with one chance of four a random one.
fn next_place(draws: &mut Pcg32, place: usize, places: usize) -> usize
    requires { 0 < places }
    ensures { result < places }
{
    if below(draws, 4) == 0 {
        below(draws, places)
    } else if place < places - 1 {
        place + 1
    } else {
        0
    }
}

// The bytes that a stretch is made of.
fn pattern(kind: usize) -> &'static [u8]
    ensures { 0 < length result.now }
{
    match kind {
        // Quoted fields: commas, quotes and line ends in them.
        0 => b"\"a\",\"b,c\",\"\"\r\n\"a\"\"b\",\"c\nd\"\n\"\r\n\",a\n",
        // Quotes within fields, and after quoted ones.
        1 => b"a\"b\"\"c,\"\"\"a\"b,\n\"\",\"\"\"\"\r\n\",a\"\n",
        // Line ends of each kind, and empty lines.
        2 => b"\r\n\n\r\r\n\n\na\r\rb\r\n,\r\"\r\"\r\n\n",
        // Records that end with a carriage return.
        3 => b"a,b\rb\r\rc,\"a\"\ra\r",
        // Long fields.
        4 => b"abcaabbccabcab cabca",
        // Plain records.
        _ => b"a,b,c\nab,,bc\r\na\nc,b\n",
    }
}

/// Reads of 1 to 4,096 bytes each, which together bring a text of `bytes` bytes.
pub fn random_steps(alloc: Global, seed: u64, bytes: usize) -> Result<Items<TapStep>, NoMemory> {
    let mut draws = Pcg32::new(seed, OF_STEPS);
    let mut steps = Items::new(alloc);
    let mut left = bytes;
    for _ in 0..bytes {
        if left == 0 {
            break;
        }
        let step = size(&mut draws, 12);
        left = left.saturating_sub(step);
        steps.push(TapStep::Gives(step))?;
    }
    Ok(steps)
}
