ghost use Rattle.std.specs.Prelude.{◌<◌, ◌≤◌, length, IfOk};

use super::HostShelf;
use crate::host_draft::{Way, is_standard_output};
use crate::{GrowingShelf, ShelfFault};
use std::fs::{self, OpenFile, OpenOptions};
use std::io::{self, ErrorKind};
use std::rt::Files;
use tuple_trace::Word;

/// Each call opens the file anew, and a write isn't synced. Links are followed, as by the system.
/// What is no regular file is written straight, and so is the standard output. To a cut it has no
/// bytes.
impl<R: Files + Print + Drop> GrowingShelf for HostShelf<R> {
    fn extend(&mut self, name: &Word, piece: &[u8]) -> Result<u64, ShelfFault> {
        let kept = name.clone().map_err(|_| ShelfFault::NoMemory)?;
        match append_to(&self.rt, name.as_str(), piece) {
            Ok(taken) => Ok(taken as u64),
            Err(error) => {
                self.count_write(kept, error.kind());
                Err(ShelfFault::Failed)
            }
        }
    }

    fn cut(&mut self, name: &Word, size: u64) -> Result<bool, ShelfFault> {
        let kept = name.clone().map_err(|_| ShelfFault::NoMemory)?;
        match cut_to(&self.rt, name.as_str(), size) {
            Ok(is_cut) => Ok(is_cut),
            Err(error) => {
                self.count_write(kept, error.kind());
                Err(ShelfFault::Failed)
            }
        }
    }
}

// Appends the first bytes of a piece, at least one, and returns how many.
fn append_to<R: Files + Print>(rt: &R, name: &str, piece: &[u8]) -> io::Result<usize>
    requires { 0 < length piece.now }
    ensures { IfOk result (λ n. (0 < n) × (n ≤ length piece.now)) }
{
    if is_standard_output(name) {
        let mut way: Way<R::File> = Way::Printed;
        return way.write(rt, piece);
    }
    let file = OpenOptions::new().append(true).create(true).open(rt, name)?;
    Way::Straight(file).write(rt, piece)
}

// Cuts a file to its first bytes. Returns false if it has fewer. A file that is to have some isn't
// made.
fn cut_to<R: Files>(rt: &R, name: &str, size: u64) -> io::Result<bool> {
    if is_stream(rt, name) {
        return Ok(size == 0);
    }
    let file = match OpenOptions::new()
        .write(true)
        .create(size == 0)
        .open(rt, name)
    {
        Ok(file) => file,
        Err(error) if error.kind() == ErrorKind::NotFound && size > 0 => return Ok(false),
        Err(error) => return Err(error),
    };
    if OpenFile::metadata(&file)?.len() < size {
        return Ok(false);
    }
    OpenFile::set_len(&file, size)?;
    Ok(true)
}

// Whether what has this name is neither a regular file nor a folder. It isn't opened, since whoever
// reads a pipe would then meet its end.
fn is_stream<R: Files>(rt: &R, name: &str) -> bool {
    if is_standard_output(name) {
        return true;
    }
    match fs::metadata(rt, name) {
        Ok(found) => !found.is_file() && !found.is_dir(),
        Err(_) => false,
    }
}
