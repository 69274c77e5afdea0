ghost use Rattle.std.specs.Prelude.{◌≡◌, None, Some};
ghost use Rattle.payments.specs.Causes.{WriteFailed};

mod growing;

use crate::host_draft::{HostDraft, begin};
use crate::host_fault::HostFault;
use crate::{Shelf, ShelfFault, Sink, SinkFault};
use std::alloc::Global;
use std::fs;
use std::io::{self, ErrorKind, Read, Write};
use std::rt::Files;
use tuple_trace::{Bytes, Word};

/// How many bytes a read of a file asks for.
const READ_SIZE: usize = 16 * 1024;

/// The files of the system. It tells none of their bytes.
///
/// The draft of a regular file, or of one that isn't there, is a file in its folder:
/// `.NAME.fries-draft` beside `NAME`. [`Shelf::keep`] waits until the disk has it, and moves it
/// over the file. It has the mode of the file, and its group if the user may give it that. Links
/// are followed, up to 40. What is no regular file is written as it is appended, and so is the
/// standard output under the name `/dev/stdout`.
///
/// A write that takes nothing counts as a failure. So does a read of a name without a file.
#[derive(Drop)]
pub struct HostShelf<R: Files + Print + Drop> {
    rt: R,
    alloc: Global,
    draft: Option<HostDraft<R::File>>,
    read_faults: u64,
    write_faults: u64,
    failed: Option<Word>,
    why: Option<HostFault>,
}

impl<R: Files + Print + Drop> HostShelf<R> {
    ghost use Rattle.payments.specs.Host.{host_draft_of, host_faults_of};

    /// The files that this runtime reaches. Takes no memory.
    pub fn new(rt: R, alloc: Global) -> Self
        ensures faults { host_faults_of result ≡ record { reads = 0; writes = 0; failed = None } }
        ensures draft { host_draft_of result ≡ None }
    {
        HostShelf {
            rt,
            alloc,
            draft: None,
            read_faults: 0,
            write_faults: 0,
            failed: None,
            why: None,
        }
    }

    /// Why the system refused the latest call that failed. None if none did.
    pub fn why(&self) -> Option<HostFault> {
        self.why
    }

    // Counts a write to this file that failed.
    fn count_write(&mut self, name: Word, kind: ErrorKind)
        ensures failed { WriteFailed (Some name) (host_faults_of self.old)
            (host_faults_of self.new) }
        ensures draft { self.new.draft ≡ self.old.draft }
    {
        self.write_faults = self.write_faults.saturating_add(1);
        self.failed = Some(name);
        self.why = Some(HostFault::of(kind));
    }
}

impl<R: Files + Print + Drop> Shelf for HostShelf<R> {
    ghost use Rattle.payments.specs.Host.{host_state_of};

    ghost state = { λ s. host_state_of s };

    fn read_all(&mut self, alloc: Global, name: &Word, limit: u64) -> Result<Bytes, ShelfFault> {
        let kept = name.clone().map_err(|_| ShelfFault::NoMemory)?;
        let read = match fs::open(&self.rt, name.as_str()) {
            Ok(file) => read_up_to(alloc, file, limit),
            Err(error) => Err(error),
        };
        match read {
            Ok(bytes) if bytes.len() as u64 > limit => Err(ShelfFault::Long),
            Ok(bytes) => Ok(Bytes::from_vec(bytes)),
            Err(error) if error.kind() == ErrorKind::OutOfMemory => Err(ShelfFault::NoMemory),
            Err(error) => {
                self.read_faults = self.read_faults.saturating_add(1);
                self.failed = Some(kept);
                self.why = Some(HostFault::of(error.kind()));
                Err(ShelfFault::Failed)
            }
        }
    }

    fn create(&mut self, name: &Word) -> Result<(), ShelfFault> {
        if let Some(draft) = self.draft.take() {
            draft.way.give_up(&self.rt);
        }
        let name = name.clone().map_err(|_| ShelfFault::NoMemory)?;
        match begin(&self.rt, self.alloc, name.as_str()) {
            Ok(way) => {
                self.draft = Some(HostDraft { name, way });
                Ok(())
            }
            Err(error) if error.kind() == ErrorKind::OutOfMemory => Err(ShelfFault::NoMemory),
            Err(error) => {
                self.count_write(name, error.kind());
                Err(ShelfFault::Failed)
            }
        }
    }

    fn append(&mut self, piece: &[u8]) -> Result<u64, ShelfFault> {
        let Some(mut draft) = self.draft.take() else {
            unreachable!()
        };
        match draft.way.write(&self.rt, piece) {
            Ok(taken) => {
                self.draft = Some(draft);
                Ok(taken as u64)
            }
            Err(error) => {
                draft.way.give_up(&self.rt);
                self.count_write(draft.name, error.kind());
                Err(ShelfFault::Failed)
            }
        }
    }

    fn keep(&mut self) -> Result<(), ShelfFault> {
        let Some(draft) = self.draft.take() else {
            unreachable!()
        };
        match draft.way.keep(&self.rt) {
            Ok(()) => Ok(()),
            Err(error) => {
                draft.way.give_up(&self.rt);
                self.count_write(draft.name, error.kind());
                Err(ShelfFault::Failed)
            }
        }
    }
}

/// The bytes of a file, of which one more than the limit are read at most, so that a longer file
/// shows. Each read goes through a room of its own, which is blanked once.
fn read_up_to<F: Read + Drop>(alloc: Global, file: F, limit: u64) -> io::Result<Vec<u8>> {
    let mut file = file.take(limit.saturating_add(1));
    let mut room = [0; READ_SIZE];
    let mut bytes = Vec::new(alloc);
    for _ in 0..u64::MAX {
        match file.read(&mut room) {
            Ok(0) => return Ok(bytes),
            Ok(count) => bytes.extend_from_slice(&room[..count])?,
            Err(error) if error.kind() == ErrorKind::Interrupted => {}
            Err(error) => return Err(error),
        }
    }
    Err(ErrorKind::Interrupted.into())
}

/// A standard stream: what this runtime prints to. It tells nothing of what was written. A write
/// that takes nothing counts as a failure.
#[derive(Drop)]
pub struct StdOut<R: Print + Drop> {
    rt: R,
    faults: u64,
}

impl<R: Print + Drop> StdOut<R> {
    ghost use Rattle.payments.specs.Host.{out_faults_of};

    /// The standard output that this runtime reaches. Takes no memory.
    pub fn new(rt: R) -> Self
        ensures { out_faults_of result ≡ 0 }
    {
        StdOut { rt, faults: 0 }
    }
}

impl<R: Print + Drop> Sink for StdOut<R> {
    ghost use Rattle.payments.specs.Host.{out_state_of};

    ghost state = { λ s. out_state_of s };

    fn write(&mut self, piece: &[u8]) -> Result<u64, SinkFault> {
        let taken = io::writer(&self.rt).write(piece).unwrap_or(0);
        if taken == 0 {
            self.faults = self.faults.saturating_add(1);
            return Err(SinkFault::Failed);
        }
        Ok(taken as u64)
    }
}
