// The command or the option that a word was meant to be.
use std::alloc::{AllocError, Global};
use std::fmt::Write;
use strsim::levenshtein;

/// From how many edits on a name isn't near.
const FAR: usize = 3;

/// How many bytes a word has at most that is compared with names.
const LONG: usize = 32;

/// The name that is nearest to a word, among those that were looked at.
#[derive(Clone, Copy)]
pub(crate) struct Nearest<'w> {
    word: &'w str,
    found: Option<&'static str>,
    edits: usize,
}

impl<'w> Nearest<'w> {
    /// No name was looked at. Takes no memory.
    pub(crate) fn new(word: &'w str) -> Self {
        Nearest {
            word,
            found: None,
            edits: FAR,
        }
    }

    /// Looks at one more name.
    pub(crate) fn look(&mut self, alloc: Global, name: &'static str) -> Result<(), AllocError> {
        if self.word.len() <= LONG {
            let edits = levenshtein(alloc, self.word, name)?;
            if edits < self.edits {
                self.edits = edits;
                self.found = Some(name);
            }
        }
        Ok(())
    }

    /// Ends a sentence: with a question if a name is near.
    pub(crate) fn push(self, out: &mut String) -> Result<(), AllocError> {
        match self.found {
            Some(name) => write!(out, "; is it `{name}`?"),
            None => out.push('.'),
        }
    }
}
