ghost use Rattle.std.specs.Prelude.{◌≡◌, [], Some, IfErr, OnOk, option_copied};
ghost use Rattle.std.specs.FinMap as map;
ghost use Rattle.payments.specs.Memory.{plan_of, sink_plan_of};

use crate::{Calls, GrowingShelf, MemoryShelf, MemorySink, Shelf, ShelfFault, Sink, SinkFault};
use std::alloc::Global;
use tuple_trace::{Bytes, Word};

/// Files in memory that are always there: no call fails, and a name without a file is read as an
/// empty file. Only memory can run out.
///
/// It shows what is left of a run when the outside never refuses.
#[derive(Debug, Drop)]
pub struct SureShelf {
    shelf: MemoryShelf,
    ghost sure: { (plan_of shelf).failing ≡ [] },
}

impl SureShelf {
    ghost use Rattle.payments.specs.Files.{Files};
    ghost use Rattle.payments.specs.Memory.{files_of, stored_files};
    ghost use Rattle.payments.specs.Sure.{sure_files};

    /// An empty shelf. An append takes at most `step` bytes, but at least one. Takes no memory.
    pub fn new(alloc: Global, step: u64) -> Self
        ensures { sure_files result ≡ stored_files [] }
    {
        SureShelf {
            shelf: MemoryShelf::new(alloc, step, Calls::new(alloc)),
        }
    }

    /// The bytes of a file. None if there is no file of this name.
    pub fn get(&self, name: &Word) -> Option<&Bytes>
        ensures { option_copied result ≡ map.get (sure_files self.now) name.now }
    {
        self.shelf.get(name)
    }

    /// Puts a file on the shelf, in place of one with the same name. A draft is given up. After
    /// [`ShelfFault::NoMemory`] the files are as before.
    pub fn put(&mut self, name: Word, bytes: Bytes) -> Result<(), ShelfFault>
        ensures ok { OnOk result (sure_files self.new
            ≡ map.insert (sure_files self.old) name bytes) }
        ensures err { IfErr result (λ fault. (fault ≡ ShelfFault.NoMemory)
            × (sure_files self.new ≡ sure_files self.old)) }
    {
        self.shelf.put(name, bytes)
    }
}

impl Shelf for SureShelf {
    ghost use Rattle.payments.specs.Sure.{sure_state_of};

    ghost state = { sure_state_of };

    fn read_all(&mut self, alloc: Global, name: &Word, limit: u64) -> Result<Bytes, ShelfFault> {
        if self.shelf.get(name).is_none() {
            return Ok(Bytes::new(alloc));
        }
        self.shelf.read_all(alloc, name, limit)
    }

    fn create(&mut self, name: &Word) -> Result<(), ShelfFault> {
        self.shelf.create(name)
    }

    fn append(&mut self, piece: &[u8]) -> Result<u64, ShelfFault> {
        self.shelf.append(piece)
    }

    fn keep(&mut self) -> Result<(), ShelfFault> {
        self.shelf.keep()
    }
}

impl GrowingShelf for SureShelf {
    fn extend(&mut self, name: &Word, piece: &[u8]) -> Result<u64, ShelfFault> {
        self.shelf.extend(name, piece)
    }

    fn cut(&mut self, name: &Word, size: u64) -> Result<bool, ShelfFault> {
        self.shelf.cut(name, size)
    }
}

/// A stream in memory that takes every piece whole. Only memory can run out.
#[derive(Debug, Drop)]
pub struct SureSink {
    sink: MemorySink,
    ghost sure: { (sink_plan_of sink).failing ≡ [] },
}

impl SureSink {
    ghost use Rattle.payments.specs.Sure.{sure_written};

    /// A stream to which nothing is written yet. Takes no memory.
    pub fn new(alloc: Global) -> Self
        ensures { sure_written result ≡ [] }
    {
        SureSink {
            sink: MemorySink::new(alloc, Calls::new(alloc)),
        }
    }

    /// All that was written.
    pub fn written(&self) -> &[u8]
        ensures { result.now ≡ sure_written self.now }
    {
        self.sink.written()
    }
}

impl Sink for SureSink {
    ghost use Rattle.payments.specs.Sure.{sure_sink_state_of};

    ghost state = { sure_sink_state_of };

    fn write(&mut self, piece: &[u8]) -> Result<u64, SinkFault> {
        self.sink.write(piece)
    }
}
