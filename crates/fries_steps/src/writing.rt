ghost use Rattle.std.specs.Prelude.{◌≡◌, None, IfErr, OnErr, OnOk};
ghost use Rattle.std.specs.Result.{result_err};
ghost use Rattle.payments.specs.Files.{with_bytes};
ghost use Rattle.fries_steps.specs.Outcomes.{EndsStoring};
ghost use Rattle.payments.specs.World.{world};
ghost use Rattle.fries_steps.specs.Effects.{StoresNot};

use crate::printing::print;
use fries_lines::{Fault, FileIs};
use payments::{Shelf, ShelfFault, Sink, store_parts};
use std::marker::Model;
use text_threads::Text;
use tuple_trace::{Bytes, Word};

/// A text that is to stand in a file.
#[derive(Drop)]
pub struct FileText<'a> {
    /// What a fault of the file says that it is.
    pub file: FileIs,
    pub name: &'a Word,
    pub text: Text,
}

impl<'a> Model for FileText<'a> {
    ghost use Rattle.fries_steps.specs.Effects.{FileText};

    ghost Value = { FileText };

    ghost view = { λ f. record { is = f.file; name = f.name.now; text = f.text } };
}

/// What a run leaves to be written.
#[derive(Drop)]
pub struct Texts<'a> {
    /// The files, in the order in which they are stored.
    pub files: Vec<FileText<'a>>,
    /// The lines that are printed once all files are stored.
    pub lines: Bytes,
}

/// Stores the files one after the other, and then prints the lines. The first fault ends it.
pub fn write_texts<S: Shelf, O: Sink>(
    texts: &Texts<'_>,
    shelf: &mut S,
    out: &mut O,
) -> Result<(), Fault>
    ensures { EndsStoring texts.now.files.items texts.now.lines
        (world (S.state shelf.old) (O.state out.old))
        (world (S.state shelf.new) (O.state out.new))
        (result_err result) }
{
    for text in texts.files.as_slice() {
        store_text(shelf, text)?;
    }
    print(out, texts.lines.as_slice())
}

// Makes the file hold its text. After a fault it is as before.
fn store_text<S: Shelf>(shelf: &mut S, text: &FileText<'_>) -> Result<(), Fault>
    ensures whole { OnOk result ((S.state shelf.new).files ≡
        with_bytes (S.state shelf.old).files text.now.name text.now.text) }
    ensures counts { OnOk result ((S.state shelf.new).faults ≡ (S.state shelf.old).faults) }
    ensures as_before { OnErr result ((S.state shelf.new).files ≡ (S.state shelf.old).files) }
    ensures closed { (S.state shelf.new).draft ≡ None }
    ensures cause { IfErr result
        (StoresNot text.now.is text.now.name
        (S.state shelf.old).faults (S.state shelf.new).faults) }
{
    match store_parts(shelf, text.name, text.text.parts()) {
        Ok(()) => Ok(()),
        Err(ShelfFault::Failed) => Err(Fault::Write(text.file)),
        Err(ShelfFault::Long | ShelfFault::NoMemory) => Err(Fault::NoMemory),
    }
}
