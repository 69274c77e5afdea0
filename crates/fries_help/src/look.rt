// A second look at a file, for what is said of it.
use payments::Shelf;
use std::alloc::Global;
use std::fs::{self, OpenFile};
use std::io::Read;
use std::rt::Files;
use tuple_trace::{Bytes, Word};

/// Where a file of the call is looked at once more.
///
/// A look is for a message alone. If a file can't be looked at, the message has fewer names.
pub trait Look {
    /// The bytes of a file, at most `limit` of them.
    fn look(&mut self, alloc: Global, name: &str, limit: u64) -> Option<Bytes>;
}

/// The files of the host. Only regular files are looked at: a pipe gives its bytes but once, and
/// could be waited for.
#[derive(Drop)]
pub struct HostLook<R: Files + Drop> {
    rt: R,
}

impl<R: Files + Drop> HostLook<R> {
    /// The files that this runtime reaches. Takes no memory.
    pub fn new(rt: R) -> Self {
        HostLook { rt }
    }
}

impl<R: Files + Drop> Look for HostLook<R> {
    fn look(&mut self, alloc: Global, name: &str, limit: u64) -> Option<Bytes> {
        if !fs::metadata(&self.rt, name).ok()?.is_file() {
            return None;
        }
        let file = fs::open(&self.rt, name).ok()?;
        let mut bytes = Vec::new(alloc);
        file.take(limit).read_to_end(&mut bytes).ok()?;
        Some(Bytes::from_vec(bytes))
    }
}

/// The files of a shelf.
#[derive(Drop)]
pub struct ShelfLook<'a, S> {
    pub shelf: &'a mut S,
}

impl<S: Shelf> Look for ShelfLook<'_, S> {
    fn look(&mut self, alloc: Global, name: &str, limit: u64) -> Option<Bytes> {
        let name = Word::from_string(name.to_string(alloc).ok()?);
        self.shelf.read_all(alloc, &name, limit).ok()
    }
}
