ghost use Rattle.fries_words.specs.Asked.{IsSize};

use flow_engine::Engine;
use fries_words::EngineSize;
use std::alloc::Global;
use text_threads::Team;

/// What a call runs on: the runtime, by which it starts threads and waits for them, the allocator,
/// and the gate that its workers call. A call hands it down to each step that runs rows.
#[derive(Drop)]
pub struct Host<'a, R, G> {
    pub rt: &'a R,
    pub alloc: Global,
    pub gate: &'a G,
}

impl<'a, R, G> Host<'a, R, G> {
    /// The engine of one run on this host, over lanes of this form.
    pub fn engine<'b, L>(&'b self, form: &'b L, size: EngineSize) -> Engine<'b, R, L, G>
        requires { IsSize size }
    {
        Engine::new(
            self.rt,
            self.alloc,
            form,
            self.gate,
            size.threads,
            size.capacity,
        )
    }

    /// The threads of this host that read rows and make texts, at most so many at once.
    pub fn team(&self, threads: u32) -> Team<'a, R> {
        Team {
            rt: self.rt,
            alloc: self.alloc,
            threads,
        }
    }
}
