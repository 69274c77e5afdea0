ghost use Rattle.std.specs.Prelude.{◌≤◌, min};
ghost use Rattle.flow_runner.specs.Size.{IsEngineSize};

use flow_engine::Engine;
use std::alloc::Global;

/// A part has one thread for so many rows, and one more for each so many again.
const ROWS_A_THREAD: usize = 64;

/// What a stream runs on: the runtime, the allocator, the form of its lanes, the gate that its
/// workers call, and the size of its engines. A call hands it down to each of its parts.
#[derive(Drop)]
pub struct StreamHost<'a, R, L, G> {
    pub rt: &'a R,
    pub alloc: Global,
    pub form: &'a L,
    pub gate: &'a G,
    /// A part runs on at most so many threads; 1 to 16.
    pub threads: u32,
    /// A lane holds at most so many items; 1 to 64.
    pub capacity: u32,
    ghost sized: { IsEngineSize threads capacity },
}

impl<'a, R, L, G> StreamHost<'a, R, L, G> {
    /// The engine of a part of so many rows. A small part has fewer threads, since to start one
    /// takes longer than to run some rows.
    pub fn engine(&self, rows: usize) -> Engine<'a, R, L, G> {
        let threads = threads_for(rows, self.threads);
        Engine::new(
            self.rt,
            self.alloc,
            self.form,
            self.gate,
            threads,
            self.capacity,
        )
    }
}

// How many threads a part of so many rows has, of `most`.
fn threads_for(rows: usize, most: u32) -> u32
    requires { 1 ≤ most }
    ensures some { 1 ≤ result }
    ensures few { result ≤ most }
{
    match u32::try_from(rows / ROWS_A_THREAD) {
        Ok(more) => more.saturating_add(1).min(most),
        Err(_) => most,
    }
}
