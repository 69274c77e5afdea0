ghost use Rattle.std.specs.Prelude.{◌≡◌, true, IfOk, OnOk};
ghost use Rattle.sink_journal.specs.Records.{records_text};
ghost use Rattle.text_threads.specs.inner.Pieces.{pieces_records};
ghost use Rattle.text_threads.specs.inner.Shares.{are_made, joined as joined_of};

use crate::piece::{Piece, text_of};
use crate::pieces::Pieces;
use crate::text::Text;
use std::alloc::Global;
use std::thread::{Threads, map_chunks};
use tuple_trace::NoMemory;

/// The threads that make a text. A thread that can't be started leaves its share to another.
#[derive(Drop)]
pub struct Team<'a, R> {
    pub rt: &'a R,
    pub alloc: Global,
    /// How many threads write at once, the caller's own among them.
    pub threads: u32,
}

impl<R: Threads + Sync> Team<'_, R> {
    /// The text of the records of these pieces.
    pub(crate) fn text_of(&self, pieces: &Pieces<'_>) -> Result<Text, NoMemory>
        ensures { IfOk result (λ text. text ≡ records_text pieces.now) }
    {
        let alloc = self.alloc;
        let pieces = pieces.as_slice();
        let share = pieces.len().div_ceil(self.threads.max(1) as usize).max(1);
        let write = |_start: usize, share: &[Piece<'_>]| -> Result<Text, NoMemory>
            ensures { IfOk result (λ text. text ≡ records_text (pieces_records share.now)) }
        { text_of(alloc, share) };
        let texts = map_chunks(self.rt, alloc, pieces, share, &write)?;
        joined(alloc, texts)
    }
}

// The texts one after another, if each of them was made.
fn joined(alloc: Global, texts: Vec<Result<Text, NoMemory>>) -> Result<Text, NoMemory>
    ensures made { OnOk result (are_made texts.items ≡ true) }
    ensures whole { IfOk result (λ whole. whole ≡ joined_of texts.items) }
{
    let mut whole = Text::new(alloc);
    for text in texts {
        whole.append(text?)?;
    }
    Ok(whole)
}
