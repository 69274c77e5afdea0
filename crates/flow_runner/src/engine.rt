ghost use Rattle.std.specs.Prelude.{◌≡◌, ◌≤◌};
ghost use Rattle.flow_runner.specs.Size.{IsEngineSize};

use std::alloc::Global;
use std::sync::atomic::{AtomicBool, Ordering};
use tuple_trace::{MAX_CAPACITY, MAX_THREADS};

/// What a run hands down to each of its steps: the runtime, the allocator, the form of its lanes,
/// its gate, its size, and a word by which each of its threads can stop all of them.
///
/// An engine is made for one run. If that fails, the word is set, and no later run of the same
/// engine goes on.
#[derive(Drop)]
pub struct Engine<'a, R, L, G> {
    pub rt: &'a R,
    pub alloc: Global,
    pub form: &'a L,
    pub gate: &'a G,
    /// At most so many threads run, with that of the caller; 1 to 16.
    pub threads: u32,
    /// A lane holds at most so many items; 1 to 64.
    pub capacity: u32,
    stop: AtomicBool,
    ghost sized: { IsEngineSize threads capacity },
}

impl<'a, R, L, G> Engine<'a, R, L, G> {
    /// An engine of at most `threads` threads, 1 to 16, over lanes of this form, each of which
    /// holds at most `capacity` items, 1 to 64.
    pub fn new(
        rt: &'a R,
        alloc: Global,
        form: &'a L,
        gate: &'a G,
        threads: u32,
        capacity: u32,
    ) -> Engine<'a, R, L, G>
        requires some_threads { 1 ≤ threads }
        requires few_threads { threads ≤ MAX_THREADS }
        requires some_items { 1 ≤ capacity }
        requires few_items { capacity ≤ MAX_CAPACITY }
        ensures threads { result.threads ≡ threads }
        ensures capacity { result.capacity ≡ capacity }
    {
        Engine {
            rt,
            alloc,
            form,
            gate,
            threads,
            capacity,
            stop: AtomicBool::new(false),
        }
    }

    /// Whether a step has stopped the run.
    pub fn is_stopped(&self) -> bool {
        self.stop.load(Ordering::SeqCst)
    }

    /// Stops the run, since a step ran out of memory. Each thread ends before its next step.
    pub fn stop(&self) {
        self.stop.store(true, Ordering::SeqCst);
    }
}
